//! Files that stay open between calls.
ghost use Rattle.std.specs.Prelude.{◌≡◌, ◌≢◌, ◌≤◌, ◌↔◌, ℕ, List, ◌∷◌, length, All, IfOk, IfSome, IfNone, IsTrue, MatchOption};
ghost use Rattle.std.specs.String.{string_bytes};
ghost use Rattle.bl_site_host.specs.Events.{Event, StandsUnder};
ghost use Rattle.bl_site_host.specs.Handles.{AllStand, IsPlaceOf};

use std::alloc::{AllocError, Global};

// No more files than this are kept open.
const MOST: usize = 64;

#[derive(Drop)]
pub(crate) struct Handle<F: Drop> {
    pub(crate) name: String,
    pub(crate) file: F,
    // Whether bytes can be appended to it.
    pub(crate) appends: bool,
    // Whether bytes were appended since its last sync.
    pub(crate) unsynced: bool,
}

// Open files by their names, the oldest first.
#[derive(Drop)]
pub(crate) struct Handles<F: Drop> {
    pub(crate) open: Vec<Handle<F>>,
}

impl<F: Drop> Handles<F> {
    pub(crate) fn new(alloc: Global) -> Handles<F>
        ensures { (id : F → ℕ) (calls : List Event) → AllStand id calls result.open.items }
    {
        Handles {
            open: Vec::new(alloc),
        }
    }

    pub(crate) fn place(&self, name: &str) -> Option<usize>
        ensures { MatchOption result (All (λ handle. name.now ≢ string_bytes handle.name) self.now.open.items)
            (IsPlaceOf name.now self.now.open.items) }
    {
        for (at, handle) in self.open.iter().enumerate() {
            if handle.name.as_str() == name {
                return Some(at);
            }
        }
        None
    }

    pub(crate) fn is_full(&self) -> bool
        ensures { IsTrue result ↔ 64 ≤ length self.now.open.items }
    {
        self.open.len() >= MOST
    }

    // Closes the files of this name.
    pub(crate) fn close(&mut self, name: &str)
        ensures gone { All (λ handle. name.now ≢ string_bytes handle.name) self.new.open.items }
        ensures stand { (id : F → ℕ) (calls : List Event) → AllStand id calls self.old.open.items → AllStand id calls self.new.open.items }
    {
        'places: while let Some(at) = self.place(name) {
            drop(self.open.remove(at));
        }
    }

    // Takes the file out that has been open longest.
    pub(crate) fn take_oldest(&mut self) -> Option<Handle<F>>
        ensures none { IfNone result (length self.old.open.items ≡ 0) }
        ensures oldest { IfSome result (λ handle. self.old.open.items ≡ handle ∷ self.new.open.items) }
        ensures stand { (id : F → ℕ) (calls : List Event) → AllStand id calls self.old.open.items → AllStand id calls self.new.open.items }
    {
        if self.open.is_empty() {
            return None;
        }
        Some(self.open.remove(0))
    }

    // Keeps a file open, and answers its place. Where memory runs out it is closed.
    pub(crate) fn keep(&mut self, name: String, file: F, appends: bool) -> Result<usize, AllocError>
        ensures place { IfOk result (IsPlaceOf (string_bytes name) self.new.open.items) }
        ensures stand { (id : F → ℕ) (calls : List Event) → StandsUnder (string_bytes name) (id file) calls → AllStand id calls self.old.open.items → AllStand id calls self.new.open.items }
    {
        let at = self.open.len();
        self.open.push(Handle {
            name,
            file,
            appends,
            unsynced: false,
        })?;
        Ok(at)
    }
}
