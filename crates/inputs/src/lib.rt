// What the programs read, within limits, and how they end: with a message that says what is wrong.
#![tactic(auto)]

ghost use Rattle.std.specs.Prelude.{◌≡◌, ◌<◌, ◌≤◌, ◌↔◌, length, vec_len, IfOk, IfSome, IsNone, IsOk, MatchOption};
ghost use Rattle.std.specs.Process.{exit_status};

use anyhow::anyhow;
use std::alloc::Global;
use std::fs::File;
use std::io;
use std::io::Read;
use std::process::ExitCode;

// The longest script that the programs take, in bytes.
pub const MAX_SCRIPT: usize = 512;

// The most ways that they allow a script.
pub const MAX_WAYS: u32 = 4096;

// Reads as much as fits into lent memory, and says how much that was: for those who have none to ask for, or who want the front of a longer input.
pub fn read_up_to<R: Read>(from: &mut R, buf: &mut [u8]) -> anyhow::Result<usize>
    ensures { IfOk result (λ n. n ≤ length buf.old) }
{
    // counted by hand: each read says itself how much it gave
    let mut n = 0;
    for _i in 0..buf.len() {
        if n >= buf.len() {
            break;
        }
        let got = from.read(&mut buf[n..])?;
        if got == 0 {
            break;
        }
        n += got;
    }
    Ok(n)
}

// A file's bytes, as many as fit.
pub fn read_file(rt: &HostRuntime, path: &str, buf: &mut [u8]) -> anyhow::Result<usize>
    ensures { IfOk result (λ n. n ≤ length buf.old) }
{
    let mut file = File::open(rt, path).map_err(|e| anyhow!("cannot open {path}: {e}"))?;
    read_up_to(&mut file, buf)
}

// All bytes that a reader has left, where they are at most so many. One more is read, which shows that there are more.
pub fn read_within<R: Read + Drop>(
    alloc: Global,
    from: R,
    most: usize,
) -> io::Result<Option<Vec<u8>>>
    ensures within { IfOk result (λ read. IfSome read (λ bytes. vec_len bytes ≤ most)) }
    ensures honest { IfOk result (λ read. IfSome (R.remaining from) (λ xs. MatchOption read (most < length xs) (λ bytes. bytes.items ≡ xs))) }
{
    let mut bytes = Vec::new(alloc);
    from.take((most as u64).saturating_add(1))
        .read_to_end(&mut bytes)?;
    if bytes.len() > most {
        return Ok(None);
    }
    Ok(Some(bytes))
}

// A script's bytes out of its file.
pub fn read_script(rt: &HostRuntime, path: &str) -> anyhow::Result<Vec<u8>>
    ensures { IfOk result (λ script. vec_len script ≤ MAX_SCRIPT) }
{
    let file = File::open(rt, path).map_err(|e| anyhow!("cannot open {path}: {e}"))?;
    read_within(rt.alloc(), file, MAX_SCRIPT)?.ok_or_else(|| anyhow!(
        "{path} is longer than {MAX_SCRIPT} bytes"
    ))
}

// A number of at most so much, or the largest where none is given.
pub fn number(what: &str, text: Option<String>, most: u32) -> anyhow::Result<u32>
    ensures within { IfOk result (λ n. n ≤ most) }
    ensures none { IsNone text → result ≡ Ok most }
{
    let Some(text) = text else {
        return Ok(most);
    };
    match text.parse::<u32>() {
        Ok(n) if n <= most => Ok(n),
        _ => Err(anyhow!("the {what} is to be at most {most}, and is {text:?}")),
    }
}

// Says what went wrong in one line of the program's own, where a `main` that returned the error would say `Error:`.
pub fn finish(rt: &HostRuntime, program: &str, outcome: anyhow::Result<()>) -> ExitCode
    ensures { (exit_status result ≡ 0) ↔ IsOk outcome }
{
    let Err(e) = outcome else {
        return ExitCode::SUCCESS;
    };
    let _said = eprintln!(rt; "{program}: {e}");
    ExitCode::FAILURE
}

#[cfg(test)]
mod tests {
    use super::*;
    use std::test::Fail;

    #[test]
    fn reads_as_much_as_it_may(rt: HostRuntime) -> Result<(), Fail> {
        let fits = read_within(rt.alloc(), &b"three"[..], 5)?.ok_or("more than there is")?;
        assert!(rt; fits.as_slice() == b"three".as_slice());
        assert!(rt; read_within(rt.alloc(), &b"three"[..], 4)?.is_none());
        Ok(())
    }

    #[test]
    fn reads_as_much_as_fits(rt: HostRuntime) -> Result<(), Fail> {
        let mut buf = [0u8; 4];
        assert!(rt; read_up_to(&mut &b"three"[..], &mut buf).ok() == Some(4));
        assert!(rt; buf == *b"thre");
        assert!(rt; read_up_to(&mut &b"it"[..], &mut buf).ok() == Some(2));
        Ok(())
    }
}
