//! A system that does nothing but keep its journal, and a folder over it.
ghost use Rattle.std.specs.Prelude.{◌≡◌, ◌∷◌, [], Some, map, true};
ghost use Rattle.std.specs.String.{string_bytes};
ghost use Rattle.bl_site_host.specs.Events.{Looked, Listing, Opened, Made, Read, Wrote, SyncedFile, SyncedFolder, Renamed, Removed};
ghost use Rattle.bl_site_host.specs.declared.recorder.Note.TheVariants as note;

use crate::HostSite;
use crate::folder::Folder;
use crate::held::Held;
use crate::system::{Found, Listed, System};
use bl_site::Site;
use std::alloc::Global;
use std::io;
use std::process::Abort;
use std::test::Fail;

#[derive(Drop)]
enum Note {
    Looked(String, Found),
    Listing,
    Opened(String, u64),
    Made(String, u64),
    Read(u64, u64, usize),
    Wrote(u64, Vec<u8>),
    SyncedFile(u64),
    SyncedFolder,
    Renamed(String, String),
    Removed(String),
}

// Each name stands for a file, and no call fails. The newest note is the first.
#[derive(Drop)]
struct Recorder<R: Abort + AllocGlobal + Drop> {
    rt: R,
    notes: Vec<Note>,
    opened: u64,
}

#[derive(Drop)]
struct Opening {
    id: u64,
}

#[derive(Drop)]
struct NoEntries {
    left: u64,
}

impl<R: Abort + AllocGlobal + Drop> Recorder<R> {
    fn note(&mut self, note: Note)
        ensures { self.new.notes.items ≡ note ∷ self.old.notes.items }
    {
        self.notes.insert(0, note).expect(&self.rt, "memory")
    }

    fn text(&self, name: &str) -> String
        ensures { string_bytes result ≡ name.now }
    {
        String::from_str(self.rt.alloc(), name).expect(&self.rt, "memory")
    }
}

impl<R: Abort + AllocGlobal + Drop> System for Recorder<R> {
    type File = Opening;

    type Entries = NoEntries;

    ghost shows = { Unit {0} };

    ghost calls = { λ s. map (elim [
      | note.Looked name found ↦ Looked (string_bytes name) (Some found)
      | note.Listing ↦ Listing (Some [])
      | note.Opened name id ↦ Opened (string_bytes name) (Some id)
      | note.Made name id ↦ Made (string_bytes name) (Some id)
      | note.Read id offset most ↦ Read id offset most (Some [])
      | note.Wrote id bytes ↦ Wrote id bytes.items true
      | note.SyncedFile id ↦ SyncedFile id true
      | note.SyncedFolder ↦ SyncedFolder true
      | note.Renamed from to ↦ Renamed (string_bytes from) (string_bytes to) true
      | note.Removed name ↦ Removed (string_bytes name) true
    ]) s.notes.items };

    ghost id = { λ file. file.id };

    ghost left = { λ _. [] };

    fn look(&mut self, name: &str) -> io::Result<Found> {
        let text = self.text(name);
        self.note(Note::Looked(text, Found::File(0)));
        Ok(Found::File(0))
    }

    fn open(&mut self, name: &str, _appends: bool) -> io::Result<Opening> {
        let text = self.text(name);
        let id = self.opened.wrapping_add(1);
        self.opened = id;
        self.note(Note::Opened(text, id));
        Ok(Opening { id })
    }

    fn make(&mut self, name: &str, _replaces: bool) -> io::Result<Opening> {
        let text = self.text(name);
        let id = self.opened.wrapping_add(1);
        self.opened = id;
        self.note(Note::Made(text, id));
        Ok(Opening { id })
    }

    fn read(&mut self, file: &mut Opening, offset: u64, into: &mut [u8]) -> io::Result<usize> {
        self.note(Note::Read(file.id, offset, into.len()));
        Ok(0)
    }

    fn append(&mut self, file: &mut Opening, bytes: &[u8]) -> io::Result<()> {
        let bytes = bytes.to_vec(self.rt.alloc()).expect(&self.rt, "memory");
        self.note(Note::Wrote(file.id, bytes));
        Ok(())
    }

    fn sync_file(&mut self, file: &Opening) -> io::Result<()> {
        self.note(Note::SyncedFile(file.id));
        Ok(())
    }

    fn sync_folder(&mut self) -> io::Result<()> {
        self.note(Note::SyncedFolder);
        Ok(())
    }

    fn rename(&mut self, from: &str, to: &str) -> io::Result<()> {
        let (from, to) = (self.text(from), self.text(to));
        self.note(Note::Renamed(from, to));
        Ok(())
    }

    fn remove(&mut self, name: &str) -> io::Result<()> {
        let text = self.text(name);
        self.note(Note::Removed(text));
        Ok(())
    }

    fn list(&mut self) -> io::Result<NoEntries> {
        self.note(Note::Listing);
        Ok(NoEntries { left: 0 })
    }

    fn next(&mut self, _alloc: Global, _entries: &mut NoEntries) -> io::Result<Listed> {
        Ok(Listed::End)
    }
}

// The kind of a call, with the open file that it was on.
fn letter(note: &Note) -> (char, u64) {
    match note {
        Note::Looked(_, _) => ('l', 0),
        Note::Listing => ('n', 0),
        Note::Opened(_, id) => ('o', *id),
        Note::Made(_, id) => ('m', *id),
        Note::Read(id, _, _) => ('r', *id),
        Note::Wrote(id, _) => ('w', *id),
        Note::SyncedFile(id) => ('s', *id),
        Note::SyncedFolder => ('f', 0),
        Note::Renamed(_, _) => ('v', 0),
        Note::Removed(_) => ('d', 0),
    }
}

#[test]
fn calls_come_in_order(rt: HostRuntime) -> Result<(), Fail> {
    let alloc = rt.alloc();
    let recorder = Recorder {
        rt: rt.clone()?,
        notes: Vec::new(alloc),
        opened: 0,
    };
    let mut folder = Folder::new(alloc, recorder);
    let done = folder.create("a").is_ok()
        && folder.append("a", b"x").is_ok()
        && folder.sync("a").is_ok()
        && folder.rename("a", "b").is_ok()
        && folder.append("b", b"y").is_ok()
        && folder.rename("b", "c").is_ok();
    assert!(rt; done);
    let wanted = [
        ('f', 0),
        ('v', 0),
        ('s', 3),
        ('l', 0),
        ('l', 0),
        ('w', 3),
        ('o', 3),
        ('l', 0),
        ('f', 0),
        ('v', 0),
        ('l', 0),
        ('l', 0),
        ('s', 2),
        ('w', 2),
        ('o', 2),
        ('l', 0),
        ('f', 0),
        ('s', 1),
        ('m', 1),
        ('l', 0),
    ];
    let found: Vec<(char, u64)> = folder.system.notes.iter().map(letter).collect(alloc)?;
    assert_eq!(rt; found.as_slice(), wanted.as_slice());
    Ok(())
}

#[test]
fn a_site_asks_its_folder_and_its_output(rt: HostRuntime) -> Result<(), Fail> {
    let alloc = rt.alloc();
    let recorder = Recorder {
        rt: rt.clone()?,
        notes: Vec::new(alloc),
        opened: 0,
    };
    let held = Held {
        bytes: Vec::new(alloc),
        flushed: 0,
        fails: false,
    };
    let mut site = HostSite::new(alloc, recorder, held);
    let mut into = [0; 4];
    assert_eq!(rt; site.len("a"), Ok(Some(0)));
    assert_eq!(rt; site.read_at("a", 2, &mut into), Ok(Some(0)));
    assert!(rt; site.list(alloc).is_ok());
    assert_eq!(rt; site.tell(b"abc"), Ok(()));
    let notes = &site.keeper.folder.system.notes;
    let found: Vec<(char, u64)> = notes.iter().map(letter).collect(alloc)?;
    let wanted = [('n', 0), ('r', 1), ('o', 1), ('l', 0), ('l', 0)];
    assert_eq!(rt; found.as_slice(), wanted.as_slice());
    assert_eq!(rt; site.output.flushed, 3);
    Ok(())
}
