//! Why a call of this crate failed.

ghost use Rattle.std.specs.Prelude.{◌≡◌};
ghost use Rattle.bl_manifest.specs.declared.error.ManifestErr.TheVariants.{OutOfMemory};

use bl_code::Octets;
use bl_edit::EditErr;
use bl_names::NameErr;
use bl_records::RecordErr;

/// Why a call failed.
#[derive(Drop)]
pub enum ManifestErr {
    /// The folder could not be read or written.
    Disk,
    /// The file of this name is damaged at this place.
    Corrupt(Octets, u64),
    /// Memory ran out.
    OutOfMemory,
}

impl From<EditErr> for ManifestErr {
    ghost from_gives = { λ _ w. w ≡ OutOfMemory };

    fn from(_: EditErr) -> ManifestErr {
        ManifestErr::OutOfMemory
    }
}

impl From<NameErr> for ManifestErr {
    ghost from_gives = { λ _ w. w ≡ OutOfMemory };

    fn from(_: NameErr) -> ManifestErr {
        ManifestErr::OutOfMemory
    }
}

impl From<RecordErr> for ManifestErr {
    ghost use Rattle.bl_manifest.specs.Causes.{error_of};

    ghost from_gives = { λ e w. w ≡ error_of e };

    fn from(error: RecordErr) -> ManifestErr {
        match error {
            RecordErr::Disk => ManifestErr::Disk,
            RecordErr::OutOfMemory => ManifestErr::OutOfMemory,
        }
    }
}
