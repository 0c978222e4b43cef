//! The line of progress: amounts of bytes and of time, as a reader takes them in at a glance.
ghost use Rattle.std.specs.Prelude.{◌≡◌, ◌<◌, ◌≤◌, ◌^◌, IfOk, string_bytes};
ghost use Rattle.tor_cli.specs.progress.ProgressLine.{amount, duration, in_scale, progress_line, speed, time_left};

use std::alloc::{AllocError, Global};

/// So many bytes of a total were read in so many milliseconds. The text goes over the line before it.
pub fn progress_line(
    alloc: Global,
    read: u64,
    total: u64,
    milliseconds: u64,
) -> Result<String, AllocError>
    ensures { IfOk result (λ line. string_bytes line ≡ progress_line read total milliseconds) }
{
    let speed = speed(read, milliseconds);
    let left = duration(alloc, time_left(read, total, speed))?;
    let read = amount(alloc, read)?;
    let total = amount(alloc, total)?;
    let speed = amount(alloc, speed)?;
    let erase_rest = "\x1b[K";
    format!(in alloc; "\r{read} of {total}, {speed}/s, {left} left{erase_rest}")
}

/// Bytes a second; before the first millisecond has ended, as if it had.
fn speed(read: u64, milliseconds: u64) -> u64
    ensures { result ≡ speed read milliseconds }
{
    read.saturating_mul(1000) / milliseconds.max(1)
}

/// The seconds that the rest takes at this speed, at a byte a second at least.
fn time_left(read: u64, total: u64, speed: u64) -> u64
    ensures { result ≡ time_left read total speed }
{
    total.saturating_sub(read) / speed.max(1)
}

/// So many bytes, in the largest scale of which there is one, with one digit after the point, rounded down.
fn amount(alloc: Global, bytes: u64) -> Result<String, AllocError>
    ensures { IfOk result (λ text. string_bytes text ≡ amount bytes) }
{
    if bytes < 1 << 10 {
        format!(in alloc; "{bytes} B")
    } else if bytes < 1 << 20 {
        in_scale(alloc, bytes, 1 << 10, "KiB")
    } else if bytes < 1 << 30 {
        in_scale(alloc, bytes, 1 << 20, "MiB")
    } else if bytes < 1 << 40 {
        in_scale(alloc, bytes, 1 << 30, "GiB")
    } else {
        in_scale(alloc, bytes, 1 << 40, "TiB")
    }
}

fn in_scale(alloc: Global, bytes: u64, scale: u64, name: &str) -> Result<String, AllocError>
    requires some { 0 < scale }
    requires small { scale ≤ 2 ^ 40 }
    ensures { IfOk result (λ text. string_bytes text ≡ in_scale bytes scale name.now) }
{
    let whole = bytes / scale;
    let tenths = bytes % scale * 10 / scale;
    format!(in alloc; "{whole}.{tenths} {name}")
}

/// So many seconds: in hours and minutes, in minutes and seconds, or in seconds.
fn duration(alloc: Global, seconds: u64) -> Result<String, AllocError>
    ensures { IfOk result (λ text. string_bytes text ≡ duration seconds) }
{
    let hours = seconds / 3600;
    let minutes = seconds / 60 % 60;
    let rest = seconds % 60;
    if hours > 0 {
        format!(in alloc; "{hours} h {minutes} min")
    } else if minutes > 0 {
        format!(in alloc; "{minutes} min {rest} s")
    } else {
        format!(in alloc; "{rest} s")
    }
}
