//! Which entries of a memory are kept.

ghost use Rattle.std.specs.Prelude.{◌≡◌};
ghost use Rattle.std.specs.Option.{option_copied};
ghost use Rattle.bl_code.specs.Order.{same_bytes};
ghost use Rattle.bl_entry.specs.Kept.{alike, follows_alike, stripe};

use bl_entry::Entry;

// Whether two entries are of one user key.
fn same_user(a: &Entry, b: &Entry) -> bool
    ensures { result ≡ same_bytes a.now.key.user b.now.key.user }
{
    a.key.user.cmp(&b.key.user).is_eq()
}

// The sequence of an entry.
fn sequence_of(entry: &Entry) -> u64
    ensures { result ≡ entry.now.key.seq }
{
    entry.key.seq
}

// How many snapshots are below this sequence.
fn stripe(snapshots: &[u64], seq: u64) -> usize
    ensures { result ≡ stripe snapshots.now seq }
{
    snapshots.iter().filter(|&&snapshot| snapshot < seq).count()
}

// Whether two entries are of one user key and one stripe.
fn alike(snapshots: &[u64], a: &Entry, b: &Entry) -> bool
    ensures { result ≡ alike snapshots.now a.now b.now }
{
    same_user(a, b) && stripe(snapshots, sequence_of(a)) == stripe(snapshots, sequence_of(b))
}

/// Whether the entry in front is of the same user key and stripe: then it is newer, and this one is not kept.
pub(crate) fn follows_alike(snapshots: &[u64], front: Option<&Entry>, entry: &Entry) -> bool
    ensures { result ≡ follows_alike snapshots.now (option_copied front.entry) entry.now }
{
    match front {
        None => false,
        Some(front) => alike(snapshots, front, entry),
    }
}
