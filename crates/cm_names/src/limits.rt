//! How long names, paths and monikers may be.

/// The number of bytes that a name may have. It is that of the short names of Fuchsia's component
/// manifest reference (fuchsia.dev).
pub const MAX_NAME_BYTES: usize = 255;

/// The number of bytes that a path, a subdirectory and the text of a moniker may have where they
/// are read. This limit is this project's own.
pub const MAX_PATH_BYTES: usize = 4096;

/// The number of bytes that the text of a URL may have. This limit is this project's own.
pub const MAX_URL_BYTES: usize = 4096;
