//! The pairs of a scan.

ghost use Rattle.std.specs.Prelude.{◌≡◌, ◌≤◌, ◌⊎◌, ◌++◌, IfErr, OnOk, OnErr, IsErrOf, string_bytes};
ghost use Rattle.std.specs.Option.{option_copied};
ghost use Rattle.bl_site.specs.Calls.{LeavesOnly};
ghost use Rattle.bl_site.specs.Causes.{Rose};
ghost use Rattle.bl_logstore.specs.Stored.{KeepsOthers};
ghost use Rattle.bl_shell.specs.Machine.{reply};
ghost use Rattle.bl_shell.specs.Carried.{TellsFront, CutTelling};

use crate::stop::Stop;
use bl_code::Octets;
use bl_logstore::Store;
use bl_script::{Command, append_pair};
use bl_site::Site;
use std::alloc::Global;

// Once so many bytes of lines wait, they are told.
const PIECE: usize = 32768;

// Tells the lines that wait, once they are enough; those that wait then are left.
fn tell_piece<S: Site>(lines: &mut String, site: &mut S) -> Result<(), Stop>
    ensures ok { S.shows → OnOk result ((t : TellsFront (string_bytes lines.old) (S.told site.old) (S.told site.new)) × (t.rest ≡ string_bytes lines.new)) }
    ensures stays { S.shows → S.disk site.new ≡ S.disk site.old }
    ensures front { S.shows → OnErr result (TellsFront (string_bytes lines.old) (S.told site.old) (S.told site.new)) }
    ensures tell { IsErrOf result Stop.Tell → Rose (S.tell_faults site.old) (S.tell_faults site.new) }
    ensures causes { IfErr result (λ e. (e ≡ Stop.Tell) ⊎ (e ≡ Stop.OutOfMemory)) }
    ensures certain { S.shows → S.certain site.old → S.certain site.new }
    ensures cuts { S.shows → S.certain site.old → LeavesOnly S.clock S.left_since site.old site.new (CutTelling (S.disk site.old) (string_bytes lines.old) (S.told site.old)) }
    ensures later { (S.disk_faults site.old ≤ S.disk_faults site.new) × (S.tell_faults site.old ≤ S.tell_faults site.new) }
{
    if lines.len() < PIECE {
        return Ok(());
    }
    site.tell(lines.as_bytes())?;
    lines.clear();
    Ok(())
}

// The pairs of a scan, one line each, and the line behind them. They are told piece by piece.
pub(crate) fn tell_pairs<S: Site>(
    store: &Store,
    alloc: Global,
    from: Option<&Octets>,
    to: Option<&Octets>,
    site: &mut S,
) -> Result<(), Stop>
    ensures ok { S.shows → OnOk result (S.told site.new ≡ S.told site.old ++ reply (Command.Scan (option_copied from.entry) (option_copied to.entry)) store.now.now) }
    ensures stays { S.shows → S.disk site.new ≡ S.disk site.old }
    ensures front { S.shows → OnErr result (TellsFront (reply (Command.Scan (option_copied from.entry) (option_copied to.entry)) store.now.now) (S.told site.old) (S.told site.new)) }
    ensures tell { IsErrOf result Stop.Tell → Rose (S.tell_faults site.old) (S.tell_faults site.new) }
    ensures others { S.shows → KeepsOthers (S.disk site.old) (S.disk site.new) }
    ensures causes { IfErr result (λ e. (e ≡ Stop.Tell) ⊎ (e ≡ Stop.OutOfMemory)) }
    ensures certain { S.shows → S.certain site.old → S.certain site.new }
    ensures cuts { S.shows → S.certain site.old → LeavesOnly S.clock S.left_since site.old site.new
        (CutTelling (S.disk site.old) (reply (Command.Scan (option_copied from.entry) (option_copied to.entry)) store.now.now) (S.told site.old)) }
    ensures later { (S.disk_faults site.old ≤ S.disk_faults site.new) × (S.tell_faults site.old ≤ S.tell_faults site.new) }
{
    let mut lines = String::new(alloc);
    'pairs: for (key, value) in store.pairs(from, to) {
        append_pair(&mut lines, key.as_slice(), value.as_slice())?;
        tell_piece(&mut lines, site)?;
    }
    lines.push_str("end\n")?;
    site.tell(lines.as_bytes())?;
    Ok(())
}
