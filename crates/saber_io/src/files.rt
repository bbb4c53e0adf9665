// Files in memory. A source that is given back needs no memory, since its place among those given
// back was made when it was opened.
ghost use Rattle.std.specs.Prelude.{◌≡◌, ◌≤◌, ◌+◌, ◌++◌, ◌∷◌, ◌<◌, ◌↔◌, ◌⊎◌, [], All, Some, None, Contains, IsErr, IfOk, IfSome, IfNone, OnOk, OnErr, OnSome, drop, take, length, find, map, option_copied, option_map, string_bytes};
ghost use Rattle.std.specs.Str.{bytes_eq};
ghost use Rattle.saber_io.specs.Outside.{raised_faults, OpensIn};
ghost use Rattle.saber_plan.specs.Outputs.{raised_count};
ghost use Rattle.saber_io.specs.Memory.{read_size, file_named, opened_file, failed_open};

use crate::memory::is_listed;
use crate::{Failed, Files, MemSource, OpenFault, Source};
use std::alloc::{AllocError, Global};
use std::marker::Model;

/// A file in memory. Its sources give at most `cuts[j - 1]` bytes at read number j, and fail where
/// j is one of `fails`. Reads are numbered from 1.
#[derive(Drop)]
pub struct MemFile {
    /// The name that opens it.
    pub name: String,
    /// All that it has.
    pub bytes: Vec<u8>,
    /// The most bytes of each read, by its number. Each is at least 1.
    pub cuts: Vec<u64>,
    /// The numbers of the reads that fail.
    pub fails: Vec<u64>,
    pub ghost some_each: { All (λ c. 1 ≤ c) cuts.items },
}

impl MemFile {
    ghost use Rattle.saber_io.specs.Files.{file_of};

    // The first file of this name.
    fn named<'a>(files: &'a [MemFile], name: &str) -> Option<&'a MemFile>
        ensures { option_copied result ≡ find (λ f. bytes_eq (string_bytes f.name) name.now) files.now }
    {
        files.iter().find(|file| file.name.as_str() == name)
    }

    // A source over a copy of the file.
    fn source(&self, alloc: Global) -> Result<MemSource, AllocError>
        ensures { IfOk result (λ s. s ≡ opened_file (file_of self.now)) }
    {
        let bytes = self.bytes.to_vec(alloc)?;
        let cuts = self.cuts.to_vec(alloc)?;
        let fails = self.fails.to_vec(alloc)?;
        Ok(MemSource::new(bytes, cuts, fails))
    }

    // A source over the first file of this name, if there is one.
    fn open_named(
        alloc: Global,
        files: &[MemFile],
        name: &str,
    ) -> Result<Option<MemOpened>, AllocError>
        ensures { IfOk result (λ o.
            option_map opened_file (file_named (map file_of files.now) name.now) ≡ o) }
    {
        match MemFile::named(files, name) {
            None => Ok(None),
            Some(file) => {
                let source = file.source(alloc)?;
                let placed = MemOpened::new(alloc, source)?;
                Ok(Some(placed))
            }
        }
    }
}

// A source, and those that were given back before it.
#[derive(Drop)]
struct Place {
    source: MemSource,
    before: Option<Box<Place>>,
}

/// A source that `MemFiles` opened. It brings its place among the sources that are given back.
#[derive(Drop)]
pub struct MemOpened {
    place: Box<Place>,
}

impl Model for MemOpened {
    ghost use Rattle.saber_io.specs.Memory.{SourceState};

    ghost Value = { SourceState };

    ghost use Rattle.saber_io.specs.Files.{source_at};

    ghost view = { λ o. source_at o.place.value };
}

impl MemOpened {
    fn new(alloc: Global, source: MemSource) -> Result<MemOpened, AllocError>
        ensures { IfOk result (λ o. o ≡ source) }
    {
        let place = Place {
            source,
            before: None,
        };
        Ok(MemOpened {
            place: Box::new(alloc, place)?,
        })
    }
}

impl Source for MemOpened {
    ghost left = { λ o. Some o.left };

    ghost faults = { λ o. o.faults };

    fn read(&mut self, buf: &mut [u8]) -> Result<usize, Failed>
        requires { 0 < length buf.old }
        ensures fails { IsErr result ↔ Contains self.old.fails (raised_count self.old.reads) }
        ensures size { IfOk result (λ n. n ≡ read_size self.old (length buf.old)) }
        ensures bytes { IfOk result (λ n. self.old.left ≡ take n buf.new ++ self.new.left) }
        ensures behind { IfOk result (λ n. drop n buf.new ≡ drop n buf.old) }
        ensures end { result ≡ Ok 0 → self.old.left ≡ [] }
        ensures ok { OnOk result (self.new ≡
            record self.old { left = self.new.left; reads = raised_count self.old.reads }) }
        ensures err { OnErr result (self.new ≡
            record self.old { reads = raised_count self.old.reads; faults = raised_count self.old.faults }) }
        ensures untouched { OnErr result (buf.new ≡ buf.old) }
        ensures count { self.old.faults ≤ self.new.faults }
    {
        let place = &mut *self.place;
        place.source.read(buf)
    }
}

/// Files in memory, whose open number j fails where j is one of `fails`. Opens are numbered from 1.
/// It keeps which names were asked for and which sources were given back.
#[derive(Drop)]
pub struct MemFiles {
    files: Vec<MemFile>,
    fails: Vec<u64>,
    opens: u64,
    faults: u64,
    asked: Vec<String>,
    closed: Option<Box<Place>>,
}

impl Model for MemFiles {
    ghost use Rattle.std.specs.Prelude.{map, string_bytes};
    ghost use Rattle.saber_io.specs.Memory.{FilesState};

    ghost Value = { FilesState };

    ghost use Rattle.saber_io.specs.Files.{file_of, all_places};

    ghost view = { λ f. record {
      files = map file_of f.files.items;
      fails = f.fails.items;
      opens = f.opens;
      faults = f.faults;
      asked = map string_bytes f.asked.items;
      closed = all_places f.closed;
    } };
}

impl MemFiles {
    ghost use Rattle.saber_io.specs.Files.{file_of};

    /// Files of which none was opened yet. Of two with one name the first is opened.
    pub fn new(alloc: Global, files: Vec<MemFile>, fails: Vec<u64>) -> MemFiles
        ensures { result ≡ record {
          files = map file_of files.items;
          fails = fails.items;
          opens = 0;
          faults = 0;
          asked = [];
          closed = [];
        } }
    {
        MemFiles {
            files,
            fails,
            opens: 0,
            faults: 0,
            asked: Vec::new(alloc),
            closed: None,
        }
    }

    // What the open with this number gives: nothing where the number is listed or no file has the
    // name.
    fn open_numbered(
        alloc: Global,
        files: &[MemFile],
        fails: &[u64],
        number: u64,
        name: &str,
    ) -> Result<Option<MemOpened>, AllocError>
        ensures none { IfOk result (λ o. IfNone o (
            Contains fails.now number ⊎ (file_named (map file_of files.now) name.now ≡ None))) }
        ensures unlisted { IfOk result (λ o. OnSome o (¬ Contains fails.now number)) }
        ensures opened { IfOk result (λ o. IfSome o (λ s.
            option_map opened_file (file_named (map file_of files.now) name.now) ≡ Some s)) }
    {
        if is_listed(fails, number) {
            return Ok(None);
        }
        MemFile::open_named(alloc, files, name)
    }

    // Keeps the name of a file that is asked for, and opens it.
    fn ask(&mut self, alloc: Global, name: &str) -> Result<Option<MemOpened>, AllocError>
        ensures none { IfOk result (λ o. IfNone o (
            Contains self.old.fails (raised_count self.old.opens)
            ⊎ (file_named self.old.files name.now ≡ None))) }
        ensures unlisted { IfOk result (λ o. OnSome o (¬ Contains self.old.fails (raised_count self.old.opens))) }
        ensures opened { IfOk result (λ o. IfSome o (λ s.
            option_map opened_file (file_named self.old.files name.now) ≡ Some s)) }
        ensures ok { OnOk result (self.new ≡ record self.old {
          opens = raised_count self.old.opens;
          asked = self.old.asked ++ name.now ∷ [];
        }) }
        ensures err { OnErr result (self.new ≡ self.old) }
    {
        let number = self.opens.saturating_add(1);
        let source = MemFiles::open_numbered(alloc, &self.files, &self.fails, number, name)?;
        let asked = String::from_str(alloc, name)?;
        self.asked.push(asked)?;
        self.opens = number;
        Ok(source)
    }
}

impl Files for MemFiles {
    ghost use Rattle.saber_io.specs.Memory.{told_of};

    type Src = MemOpened;

    ghost told = { λ f. Some (told_of f) };

    ghost faults = { λ f. f.faults };

    fn open_file(&mut self, alloc: Global, name: &str) -> Result<MemOpened, OpenFault>
        ensures cause { result ≡ Err OpenFault.Failed →
            Contains self.old.fails (raised_count self.old.opens)
            ⊎ (file_named self.old.files name.now ≡ None) }
        ensures unlisted { OnOk result (¬ Contains self.old.fails (raised_count self.old.opens)) }
        ensures opened { IfOk result (λ src.
            option_map opened_file (file_named self.old.files name.now) ≡ Some src) }
        ensures ok { OnOk result (self.new ≡ record self.old {
          opens = raised_count self.old.opens;
          asked = self.old.asked ++ name.now ∷ [];
        }) }
        ensures failed { result ≡ Err OpenFault.Failed → self.new ≡ failed_open self.old name.now }
        ensures memory { result ≡ Err OpenFault.NoMemory → self.new ≡ self.old }
        ensures opens { IfOk result (λ src.
            OpensIn (told_of self.old).contents name.now (Some src.left)) }
        ensures count { self.old.faults ≤ self.new.faults }
    {
        let source = self.ask(alloc, name)?;
        match source {
            Some(source) => Ok(source),
            None => {
                self.faults = self.faults.saturating_add(1);
                Err(OpenFault::Failed)
            }
        }
    }

    fn close_file(&mut self, src: MemOpened)
        ensures { self.new ≡ record self.old {
          faults = raised_faults self.old.faults src.faults;
          closed = self.old.closed ++ src ∷ [];
        } }
    {
        let mut place = src.place;
        if place.source.faults() > 0 {
            self.faults = self.faults.saturating_add(1);
        }
        place.before = self.closed.take();
        self.closed = Some(place);
    }
}
