// The published functions, by the names that the lines use.
use super::pieces::in_pieces;
use super::stops::Fault;
use aes::{Aes128, CmacKey, double, double_block};
use sha256::{HmacKey, Sha256, digest};
use std::fmt;

/// A published function.
#[derive(Clone, Copy, PartialEq, Eq, Debug)]
pub enum Function {
    Sha256,
    Hmac,
    Double,
    Aes,
    DoubleBlock,
    Cmac,
}

impl fmt::Display for Function {
    fn fmt<W: fmt::Write>(&self, f: &mut fmt::Formatter<W>) -> fmt::Result {
        f.write_str(match self {
            Function::Sha256 => "SHA-256",
            Function::Hmac => "HMAC-SHA-256",
            Function::Double => "a byte doubled",
            Function::Aes => "AES-128",
            Function::DoubleBlock => "a block doubled",
            Function::Cmac => "AES-CMAC",
        })
    }
}

impl TryFrom<&[u8]> for Function {
    type Error = Fault;

    fn try_from(name: &[u8]) -> Result<Function, Fault> {
        match name {
            b"sha256" => Ok(Function::Sha256),
            b"hmac" => Ok(Function::Hmac),
            b"double" => Ok(Function::Double),
            b"aes" => Ok(Function::Aes),
            b"double-block" => Ok(Function::DoubleBlock),
            b"cmac" => Ok(Function::Cmac),
            _ => Err(Fault::Unread),
        }
    }
}

impl Function {
    /// Whether a key stands before the input.
    pub fn takes_key(self) -> bool {
        matches!(self, Function::Hmac | Function::Aes | Function::Cmac)
    }

    /// Holds the function's result to the published one: at once and, where it takes a message, also in pieces.
    pub fn compare(self, key: &[u8], input: &[u8], published: &[u8]) -> Result<(), Fault> {
        let expected = Published(published);
        match self {
            Function::Sha256 => {
                expected.begins(&digest(input))?;
                expected.begins(&in_pieces(Sha256::new(), input))
            }
            Function::Hmac => {
                let key = HmacKey::new(key);
                expected.begins(&key.tag(input))?;
                expected.begins(&in_pieces(key.start(), input))
            }
            Function::Double => {
                let [byte] = input else {
                    return Err(Fault::Unread);
                };
                expected.begins(&[double(*byte)])
            }
            Function::Aes => {
                expected.begins(&Aes128::new(block_of(key)?).encrypt(*block_of(input)?))
            }
            Function::DoubleBlock => expected.begins(&double_block(*block_of(input)?)),
            Function::Cmac => {
                let key = CmacKey::new(block_of(key)?);
                expected.begins(&key.tag(input))?;
                expected.begins(&in_pieces(key.start(), input))
            }
        }
    }
}

// Published bytes, with which a result begins. There must be some.
#[derive(Clone, Copy, PartialEq, Eq, Debug)]
struct Published<'a>(&'a [u8]);

impl Published<'_> {
    fn begins(self, ours: &[u8]) -> Result<(), Fault> {
        if self.0.is_empty() || !ours.starts_with(self.0) {
            return Err(Fault::Differs);
        }
        Ok(())
    }
}

// Sixteen bytes, if there are so many.
fn block_of(bytes: &[u8]) -> Result<&[u8; 16], Fault> {
    bytes.try_into().map_err(|_| Fault::Unread)
}
