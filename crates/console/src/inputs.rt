// What a program is given to read.
ghost use Rattle.std.specs.Prelude.{◌≡◌, IfOk, IfSome};

use std::alloc::Global;
use std::io;
use std::io::Read;

/// All that a reader has to give.
pub fn read_all<R: Read + Drop>(heap: Global, mut reader: R) -> io::Result<Vec<u8>>
    ensures { IfOk result (λ bytes. IfSome (R.remaining reader) (λ xs. bytes.items ≡ xs)) }
{
    let mut bytes = Vec::new(heap);
    let _ = reader.read_to_end(&mut bytes)?;
    Ok(bytes)
}

#[cfg(test)]
mod tests {
    use super::*;
    use std::test::Fail;

    #[test]
    fn reads_to_the_end(rt: HostRuntime) -> Result<(), Fail> {
        let text = b"register glyphs\n".as_slice();
        let bytes = read_all(rt.alloc(), text)?;
        assert_eq!(rt; bytes.as_slice(), text);
        Ok(())
    }
}
