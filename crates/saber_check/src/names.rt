// Which names stand for what.
ghost use Rattle.std.specs.Prelude.{◌≡◌, ◌||◌};
ghost use Rattle.saber_query.specs.Trees.{query_of};
ghost use Rattle.saber_check.specs.Names.{same, among, decls, declares, names_stream, is_declared, has, lacks, is_from, in_first, in_second, is_second, is_of_first, is_of_second, is_unknown_stream, is_unknown_column, is_ambiguous};

use saber_query::{Column, Decl, Name, Select};

pub(crate) fn is_among(name: &Name, names: &[Name]) -> bool
    ensures { result ≡ among name.now names.now }
{
    for other in names {
        if other.is(name) {
            return true;
        }
    }
    false
}

fn has_column(decl: &Decl, name: &Name) -> bool
    ensures { result ≡ (same decl.now.first name.now || among name.now decl.now.more) }
{
    decl.first.is(name) || is_among(name, decl.more.as_slice())
}

fn declares_among(decls: &[Decl], stream: &Name, name: &Name) -> Option<bool>
    ensures { result ≡ declares decls.now stream.now name.now }
{
    for decl in decls {
        if decl.name.is(stream) {
            return Some(has_column(decl, name));
        }
    }
    None
}

fn declares(query: &Select, stream: &Name, name: &Name) -> Option<bool>
    ensures { result ≡ declares (decls (query_of query.now)) stream.now name.now }
{
    if query.decl.name.is(stream) {
        return Some(has_column(&query.decl, name));
    }
    declares_among(query.decls.as_slice(), stream, name)
}

pub(crate) fn is_named(decls: &[Decl], stream: &Name) -> bool
    ensures { result ≡ names_stream decls.now stream.now }
{
    for decl in decls {
        if decl.name.is(stream) {
            return true;
        }
    }
    false
}

/// Whether a stream is declared with this name.
pub(crate) fn is_declared(query: &Select, stream: &Name) -> bool
    ensures { result ≡ is_declared (query_of query.now) stream.now }
{
    query.decl.name.is(stream) || is_named(query.decls.as_slice(), stream)
}

fn has(query: &Select, stream: &Name, name: &Name) -> bool
    ensures { result ≡ has (query_of query.now) stream.now name.now }
{
    match declares(query, stream, name) {
        Some(there) => there,
        None => false,
    }
}

fn lacks(query: &Select, stream: &Name, name: &Name) -> bool
    ensures { result ≡ lacks (query_of query.now) stream.now name.now }
{
    match declares(query, stream, name) {
        Some(there) => !there,
        None => false,
    }
}

fn is_second(query: &Select, stream: &Name) -> bool
    ensures { result ≡ is_second (query_of query.now) stream.now }
{
    match &query.second {
        Some(source) => source.name.is(stream),
        None => false,
    }
}

fn is_from(query: &Select, stream: &Name) -> bool
    ensures { result ≡ is_from (query_of query.now) stream.now }
{
    query.from.name.is(stream) || is_second(query, stream)
}

pub(crate) fn in_first(query: &Select, name: &Name) -> bool
    ensures { result ≡ in_first (query_of query.now) name.now }
{
    has(query, &query.from.name, name)
}

fn in_second(query: &Select, name: &Name) -> bool
    ensures { result ≡ in_second (query_of query.now) name.now }
{
    match &query.second {
        Some(source) => has(query, &source.name, name),
        None => false,
    }
}

/// Whether the name is that of a column of the first stream of FROM.
pub(crate) fn is_of_first(query: &Select, column: &Column) -> bool
    ensures { result ≡ is_of_first (query_of query.now) column.now }
{
    match &column.second {
        Some(name) => query.from.name.is(&column.first) && in_first(query, name),
        None => in_first(query, &column.first) && !in_second(query, &column.first),
    }
}

/// Whether the name is that of a column of the second stream of FROM.
pub(crate) fn is_of_second(query: &Select, column: &Column) -> bool
    ensures { result ≡ is_of_second (query_of query.now) column.now }
{
    match &column.second {
        Some(name) => is_second(query, &column.first) && in_second(query, name),
        None => in_second(query, &column.first) && !in_first(query, &column.first),
    }
}

/// Whether the first part of a qualified name isn't a stream of FROM.
pub(crate) fn is_unknown_stream(query: &Select, column: &Column) -> bool
    ensures { result ≡ is_unknown_stream (query_of query.now) column.now }
{
    match &column.second {
        Some(_) => !is_from(query, &column.first),
        None => false,
    }
}

/// Whether the column isn't one of its stream, or of none.
pub(crate) fn is_unknown_column(query: &Select, column: &Column) -> bool
    ensures { result ≡ is_unknown_column (query_of query.now) column.now }
{
    match &column.second {
        Some(name) => is_from(query, &column.first) && lacks(query, &column.first, name),
        None => !(in_first(query, &column.first) || in_second(query, &column.first)),
    }
}

/// Whether an unqualified name is a column of both streams.
pub(crate) fn is_ambiguous(query: &Select, column: &Column) -> bool
    ensures { result ≡ is_ambiguous (query_of query.now) column.now }
{
    match &column.second {
        Some(_) => false,
        None => in_first(query, &column.first) && in_second(query, &column.first),
    }
}
