//! What holds of the definitions: a caller that needs one of these calls it.

ghost use Rattle.std.specs.Prelude.{◌≡◌, ℕ, ◌<◌, ◌^◌, List, ◌++◌, length};
ghost use Rattle.bl_code.specs.BlobIndex.{IsBlobIndex, blob_index};
ghost use Rattle.bl_code.specs.Crc.{crc_after, mask_of, unmask_of};
ghost use Rattle.bl_code.specs.Laws.{TakesAgain, TakesExactly, IsFixed16, IsFixed32, IsFixed64, SpellsVarints};
ghost use Rattle.bl_code.specs.Numbers.{fixed16, fixed32, fixed64, varint32, varint64, slice, IsVarint32, IsVarint64, IsSlice};
ghost use Rattle.bl_code.specs.Reading.{take_fixed16, take_fixed32, take_fixed64, take_varint32, take_varint64, take_slice};

/// What is put is taken again, whatever follows.
pub fn what_is_put_is_taken_again()
    ensures fixed16 { TakesAgain take_fixed16 fixed16 (λ n. n < 2 ^ 16) }
    ensures fixed32 { TakesAgain take_fixed32 fixed32 (λ n. n < 2 ^ 32) }
    ensures fixed64 { TakesAgain take_fixed64 fixed64 (λ n. n < 2 ^ 64) }
    ensures varint32 { TakesAgain take_varint32 varint32 (λ n. n < 2 ^ 32) }
    ensures varint64 { TakesAgain take_varint64 varint64 (λ n. n < 2 ^ 64) }
    ensures slice { TakesAgain take_slice slice (λ bytes. length bytes < 2 ^ 32) }
{}

/// A number or a slice is taken exactly where a spelling of it stands.
pub fn readings_are_exact()
    ensures fixed16 { TakesExactly take_fixed16 IsFixed16 }
    ensures fixed32 { TakesExactly take_fixed32 IsFixed32 }
    ensures fixed64 { TakesExactly take_fixed64 IsFixed64 }
    ensures varint32 { TakesExactly take_varint32 IsVarint32 }
    ensures varint64 { TakesExactly take_varint64 IsVarint64 }
    ensures slice { TakesExactly take_slice IsSlice }
{}

/// What is put as a varint is one.
pub fn varints_are_spelled()
    ensures { SpellsVarints }
{}

/// The shortest spelling of a blob index is one, and bytes are a blob index of no more than one value.
pub fn blob_indexes_are_unique()
    ensures spelled { (file offset size : ℕ) → file < 2 ^ 64 → offset < 2 ^ 64 → size < 2 ^ 64
        → IsBlobIndex (blob_index file offset size) file offset size }
    ensures unique { (bytes : List ℕ) (f g o p s t : ℕ) → IsBlobIndex bytes f o s → IsBlobIndex bytes g p t
        → (f ≡ g) × (o ≡ p) × (s ≡ t) }
{}

/// The state after a list of bytes is that after its pieces, one after the other.
pub fn pieces_join()
    ensures { (state : ℕ) (front back : List ℕ)
        → crc_after state (front ++ back) ≡ crc_after (crc_after state front) back }
{}

/// Unmasking undoes masking.
pub fn unmask_undoes_mask()
    ensures { (crc : ℕ) → crc < 2 ^ 32 → unmask_of (mask_of crc) ≡ crc }
{}
