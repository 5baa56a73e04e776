/// The greatest length of an image file, in bytes.
pub const MAX_IMAGE_BYTES: u64 = 33_554_432;

/// The greatest length of an event list or a trace, in bytes.
pub const MAX_TRACE_BYTES: u64 = 536_870_912;
