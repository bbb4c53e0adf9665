// A walk over the items, the streams and the columns of a query.
ghost use Rattle.std.specs.Prelude.{◌≡◌, ◌+◌, ◌-◌, ◌≤◌, ◌^◌, [], ◌∷◌, ◌<◌, ◌&&◌, not, length, take};
ghost use Rattle.saber_query.specs.declared.fault.Cause.TheVariants.{NotGrouped};
ghost use Rattle.saber_query.specs.Trees.{query_of};
ghost use Rattle.saber_check.specs.Least.{row, each, Visits, Room};
ghost use Rattle.saber_check.specs.Names.{names, names_stream, decls, among};
ghost use Rattle.saber_check.specs.Widths.{name_width, column_width, expr_width, item_width, measure_width, source_width, decl_width, span};
ghost use Rattle.saber_check.specs.Faults.{sizes_faults, stream_faults, column_name_faults, is_group, is_key, keys, among_columns};
ghost use Rattle.saber_check.specs.Walked.{expr_faults, content_faults, item_faults, measure_faults, window_faults, source_faults, second_faults, key_faults, group_faults, decl_faults, items_faults, decls_faults, keys_faults};

use crate::bounds::{column_words, is_sum_wide};
use crate::names::{is_among, is_declared, is_named};
use crate::shape::{
    is_aggregate, is_among_columns, is_apart, is_bare, is_group, is_join, is_key, is_out,
    is_overlapping, is_parted_amiss, is_stray, most_windows, same_column,
};
use crate::walk::Walk;
use saber_query::{Cause, Column, Decl, Expr, Item, Keys, Measure, Name, Select, Source, Window};

// Whether one of so many first columns has the name.
fn is_column_before(decl: &Decl, before: usize, name: &Name) -> bool
    requires { before ≤ length decl.now.more + 1 }
    ensures { result ≡ among name.now (take before (names decl.now)) }
{
    if before == 0 {
        return false;
    }
    decl.first.is(name) || is_among(name, &decl.more.as_slice()[..before - 1])
}

// Whether one of so many first declarations has the name.
fn is_declared_before(query: &Select, before: usize, name: &Name) -> bool
    requires { before ≤ length query.now.decls + 1 }
    ensures { result ≡ names_stream (take before (decls (query_of query.now))) name.now }
{
    if before == 0 {
        return false;
    }
    query.decl.name.is(name) || is_named(&query.decls.as_slice()[..before - 1], name)
}

// Whether one of so many first columns of GROUP BY is this one.
fn is_key_before(query: &Select, group: &Keys, before: usize, column: &Column) -> bool
    requires { before ≤ length group.now.more + 1 }
    ensures { result
        ≡ among_columns (query_of query.now) column.now (take before (keys group.now)) }
{
    if before == 0 {
        return false;
    }
    same_column(query, &group.first, column)
        || is_among_columns(query, column, &group.more.as_slice()[..before - 1])
}

impl Walk {
    // An aggregate's argument with its words.
    #[tactic(auto, using(crate::proofs::Lemmas::walking))]
    fn argument(&mut self, query: &Select, expr: &Expr)
        requires { Room self.old (3 + expr_width expr.now) }
        ensures { Visits self.old self.new (3 + expr_width expr.now)
            (expr_faults (query_of query.now) (self.old.index + 2) expr.now) }
    {
        self.skip(2);
        self.expr(query, expr);
        self.skip(1);
    }

    // An item that a query with groups may not have.
    fn report_ungrouped(&mut self, query: &Select, grouped: bool, expr: &Expr)
        ensures { Visits self.old self.new 0
            (row (grouped && not (is_key (query_of query.now) expr.now)) self.old.index
            NotGrouped) }
    {
        if !self.is_settled() {
            let fails = grouped && !is_key(query, expr);
            self.report(fails, self.index, Cause::NotGrouped);
        }
    }

    #[tactic(auto, using(crate::proofs::Lemmas::walking))]
    fn content(&mut self, query: &Select, grouped: bool, item: &Item)
        requires room { Room self.old (item_width item.now) }
        requires grouped { grouped ≡ is_group (query_of query.now) }
        ensures { Visits self.old self.new (item_width item.now)
            (content_faults (query_of query.now) self.old.index item.now) }
    {
        let start = self.index;
        match item {
            Item::Count => self.skip(4),
            Item::Sum(expr) => {
                self.report(is_sum_wide(expr), start, Cause::SumTooWide);
                self.argument(query, expr);
            }
            Item::Min(expr) => self.argument(query, expr),
            Item::Max(expr) => self.argument(query, expr),
            Item::Value(expr) => {
                self.report_ungrouped(query, grouped, expr);
                self.expr(query, expr);
            }
        }
    }

    #[tactic(auto, using(crate::proofs::Lemmas::walking), unfolding(crate::specs::Walked::item_faults))]
    fn item(&mut self, query: &Select, grouped: bool, before: usize, item: &Item)
        requires room { Room self.old (item_width item.now) }
        requires grouped { grouped ≡ is_group (query_of query.now) }
        ensures { Visits self.old self.new (item_width item.now)
            (item_faults (query_of query.now) before self.old.index item.now) }
    {
        let start = self.index;
        let fails = is_join(query) && is_aggregate(item);
        self.report(before == 32, start, Cause::TooMany);
        self.report(fails, start, Cause::Shape);
        self.content(query, grouped, item);
    }

    #[tactic(auto, using(crate::proofs::Lemmas::walking))]
    fn measure(&mut self, query: &Select, measure: &Measure)
        requires { Room self.old (measure_width measure.now) }
        ensures { Visits self.old self.new (measure_width measure.now)
            (measure_faults (query_of query.now) self.old.index measure.now) }
    {
        match measure {
            Measure::Rows => self.skip(1),
            Measure::Range => self.skip(1),
            Measure::Partition(keys) => {
                self.skip(2);
                self.keys(query, keys);
                self.skip(1);
            }
        }
    }

    // What is behind the measure.
    #[tactic(auto, using(crate::proofs::Lemmas::walking))]
    fn sizes(&mut self, most: u64, window: &Window)
        requires { Room self.old 4 }
        ensures { Visits self.old self.new 4 (sizes_faults most self.old.index window.now) }
    {
        let start = self.index;
        self.report(is_out(window.size), start, Cause::WindowRange);
        self.report(is_out(window.slide), start + 2, Cause::WindowRange);
        self.report(is_overlapping(most, window), start, Cause::Overlap);
        self.skip(4);
    }

    #[tactic(auto, using(crate::proofs::Lemmas::walking), unfolding(crate::specs::Walked::window_faults))]
    fn window(&mut self, query: &Select, window: &Window)
        requires { Room self.old (5 + measure_width window.now.measure) }
        ensures { Visits self.old self.new (5 + measure_width window.now.measure)
            (window_faults (query_of query.now) self.old.index window.now) }
    {
        self.skip(1);
        self.measure(query, &window.measure);
        self.sizes(most_windows(query), window);
    }

    // The stream itself, of which no word is gone past.
    #[tactic(auto, using(crate::proofs::Lemmas::walking))]
    fn stream(&mut self, query: &Select, source: &Source)
        requires { Room self.old 1 }
        ensures { Visits self.old self.new 0 (stream_faults (query_of query.now) self.old.index source.now) }
    {
        let start = self.index;
        self.report(
            !is_declared(query, &source.name),
            start,
            Cause::UnknownStream,
        );
        self.report(is_stray(query, source), start + 1, Cause::Shape);
        self.report(is_bare(query, source), start, Cause::Shape);
        self.report(is_parted_amiss(query, source), start + 1, Cause::Shape);
    }

    #[tactic(auto, using(crate::proofs::Lemmas::walking), unfolding(crate::specs::Walked::source_faults))]
    pub(crate) fn source(&mut self, query: &Select, source: &Source)
        requires { Room self.old (source_width source.now) }
        ensures { Visits self.old self.new (source_width source.now)
            (source_faults (query_of query.now) self.old.index source.now) }
    {
        self.stream(query, source);
        self.skip(1);
        if let Some(window) = &source.window {
            self.window(query, window);
        }
    }

    #[tactic(auto, using(crate::proofs::Lemmas::walking), unfolding(crate::specs::Walked::second_faults))]
    pub(crate) fn second(&mut self, query: &Select, source: &Source)
        requires { Room self.old (source_width source.now) }
        ensures { Visits self.old self.new (source_width source.now)
            (second_faults (query_of query.now) self.old.index source.now) }
    {
        let start = self.index;
        self.report(
            query.from.name.is(&source.name),
            start,
            Cause::DuplicateName,
        );
        self.report(
            is_apart(&query.from.window, &source.window),
            start + 1,
            Cause::Shape,
        );
        self.source(query, source);
    }

    pub(crate) fn items(&mut self, query: &Select)
        requires { Room self.old (item_width query.now.item + span item_width query.now.items) }
        ensures { Visits self.old self.new
            (item_width query.now.item + span item_width query.now.items)
            (items_faults (query_of query.now) self.old.index) }
    {
        let grouped = is_group(query);
        self.item(query, grouped, 0, &query.item);
        let others = query.items.as_slice();
        for (behind, item) in others.iter().enumerate() {
            self.skip(1);
            self.item(query, grouped, behind + 1, item);
        }
    }

    fn column_name(&mut self, decl: &Decl, before: usize, name: &Name)
        requires room { Room self.old 1 }
        requires before { before ≤ length decl.now.more + 1 }
        ensures { Visits self.old self.new 1
            (column_name_faults decl.now before self.old.index name.now) }
    {
        if self.is_settled() {
            self.skip(1);
        } else {
            self.report_column_name(decl, before, name);
        }
    }

    #[tactic(auto, using(crate::proofs::Lemmas::walking), unfolding(crate::specs::Faults::column_name_faults))]
    fn report_column_name(&mut self, decl: &Decl, before: usize, name: &Name)
        requires room { Room self.old 1 }
        requires before { before ≤ length decl.now.more + 1 }
        ensures { Visits self.old self.new 1
            (column_name_faults decl.now before self.old.index name.now) }
    {
        let start = self.index;
        self.report(before == 32, start, Cause::TooMany);
        self.report(
            is_column_before(decl, before, name),
            start,
            Cause::DuplicateName,
        );
        self.skip(1);
    }

    fn column_names(&mut self, decl: &Decl)
        requires { Room self.old (1 + span name_width decl.now.more) }
        ensures { Visits self.old self.new (1 + span name_width decl.now.more)
            (each name_width (column_name_faults decl.now) 0 self.old.index (names decl.now)) }
    {
        self.column_name(decl, 0, &decl.first);
        let others = decl.more.as_slice();
        for (behind, name) in others.iter().enumerate() {
            self.skip(1);
            self.column_name(decl, behind + 1, name);
        }
    }

    #[tactic(auto, using(crate::proofs::Lemmas::walking), unfolding(crate::specs::Walked::decl_faults))]
    fn decl(&mut self, query: &Select, before: usize, decl: &Decl)
        requires room { Room self.old (decl_width decl.now) }
        requires before { before ≤ length query.now.decls + 1 }
        ensures { Visits self.old self.new (decl_width decl.now)
            (decl_faults (query_of query.now) before self.old.index decl.now) }
    {
        let start = self.index;
        let named = is_declared_before(query, before, &decl.name);
        self.report(before == 8, start, Cause::TooMany);
        self.report(named, start + 1, Cause::DuplicateName);
        self.skip(3);
        self.column_names(decl);
        self.skip(1);
    }

    pub(crate) fn decls(&mut self, query: &Select)
        requires { Room self.old (decl_width query.now.decl + span decl_width query.now.decls) }
        ensures { Visits self.old self.new
            (decl_width query.now.decl + span decl_width query.now.decls)
            (decls_faults (query_of query.now) self.old.index) }
    {
        self.decl(query, 0, &query.decl);
        let others = query.decls.as_slice();
        for (behind, decl) in others.iter().enumerate() {
            self.skip(1);
            self.decl(query, behind + 1, decl);
        }
    }

    fn key(&mut self, query: &Select, group: &Keys, before: usize, column: &Column)
        requires room { Room self.old (column_width column.now) }
        requires before { before ≤ length group.now.more + 1 }
        ensures { Visits self.old self.new (column_width column.now)
            (key_faults (query_of query.now) group.now before self.old.index column.now) }
    {
        if self.is_settled() {
            self.skip(column_words(column));
        } else {
            self.report_key(query, group, before, column);
        }
    }

    #[tactic(auto, using(crate::proofs::Lemmas::walking), unfolding(crate::specs::Walked::key_faults))]
    fn report_key(&mut self, query: &Select, group: &Keys, before: usize, column: &Column)
        requires room { Room self.old (column_width column.now) }
        requires before { before ≤ length group.now.more + 1 }
        ensures { Visits self.old self.new (column_width column.now)
            (key_faults (query_of query.now) group.now before self.old.index column.now) }
    {
        let start = self.index;
        let named = is_key_before(query, group, before, column);
        self.report(before == 8, start, Cause::TooMany);
        self.report(named, start, Cause::DuplicateName);
        self.column(query, column);
    }

    fn keys(&mut self, query: &Select, group: &Keys)
        requires { Room self.old (column_width group.now.first + span column_width group.now.more) }
        ensures { Visits self.old self.new
            (column_width group.now.first + span column_width group.now.more)
            (keys_faults (query_of query.now) group.now self.old.index) }
    {
        self.key(query, group, 0, &group.first);
        let others = group.more.as_slice();
        for (behind, column) in others.iter().enumerate() {
            self.skip(1);
            self.key(query, group, behind + 1, column);
        }
    }

    #[tactic(auto, using(crate::proofs::Lemmas::walking), unfolding(crate::specs::Walked::group_faults))]
    pub(crate) fn group(&mut self, query: &Select, group: &Keys)
        requires { Room self.old (2 + column_width group.now.first + span column_width
            group.now.more) }
        ensures { Visits self.old self.new
            (2 + column_width group.now.first + span column_width group.now.more)
            (group_faults (query_of query.now) self.old.index group.now) }
    {
        let start = self.index;
        self.report(is_join(query), start, Cause::Shape);
        self.skip(2);
        self.keys(query, group);
    }
}
