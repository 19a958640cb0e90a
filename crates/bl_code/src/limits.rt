//! The limits of keys and values.

/// The longest user key, in bytes.
pub const MAX_KEY: usize = 65_535;

/// The longest value, in bytes: 16 MiB.
pub const MAX_VALUE: usize = 16_777_216;
