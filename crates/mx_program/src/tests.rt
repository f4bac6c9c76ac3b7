use crate::seed;
use mx_top::Status;
use std::alloc::Global;
use std::env::{Env, FillError};
use std::io;
use std::random::RandomSource;
use std::test::Fail;

/// A host with one environment variable at most, and with random bytes that are all 7, or none.
#[derive(Clone, Copy)]
struct Host {
    variable: Option<&'static [u8]>,
    is_random: bool,
}

impl Env for Host {
    fn arg(&self, _i: usize, _buf: &mut [u8]) -> Result<usize, FillError> {
        Err(FillError::NotPresent)
    }

    fn var(&self, name: &str, buf: &mut [u8]) -> Result<usize, FillError> {
        let text = self.variable.ok_or(FillError::NotPresent)?;
        if name != "VURANDY_SEED" {
            return Err(FillError::NotPresent);
        }
        if text.len() > buf.len() {
            return Err(FillError::TooLong);
        }
        buf[..text.len()].copy_from_slice(text);
        Ok(text.len())
    }

    fn var_at(&self, _i: usize, _buf: &mut [u8]) -> Result<usize, FillError> {
        Err(FillError::NotPresent)
    }
}

impl RandomSource for Host {
    fn fill_bytes(&self, buf: &mut [u8]) -> io::Result<()> {
        if !self.is_random {
            return Err(io::Error::from(io::ErrorKind::Unsupported));
        }
        buf.fill(7);
        Ok(())
    }
}

/// The seed of a host with this variable.
fn seed_of(
    alloc: Global,
    variable: Option<&'static [u8]>,
    is_random: bool,
) -> Result<[u8; 32], Status> {
    let host = Host {
        variable,
        is_random,
    };
    seed::of_installation(&(host, alloc))
}

const DIGITS: &[u8] = b"00fF00000000000000000000000000000000000000000000000000000000001b";

#[test]
fn takes_the_variable_before_random_bytes(rt: HostRuntime) -> Result<(), Fail> {
    let mut set = [0u8; 32];
    set[1] = 255;
    set[31] = 27;
    assert_eq!(rt; seed_of(rt.alloc(), Some(DIGITS), false)?, set);
    assert_eq!(rt; seed_of(rt.alloc(), None, true)?, [7; 32]);
    assert!(rt; matches!(seed_of(rt.alloc(), None, false), Err(Status::ReadFault)));
    Ok(())
}

#[test]
fn refuses_other_forms(rt: HostRuntime) {
    let longer = b"00ff00000000000000000000000000000000000000000000000000000000001b00";
    let spaced = b" 0ff00000000000000000000000000000000000000000000000000000000001b";
    for text in [b"", b"g".as_slice(), &DIGITS[1..], longer, spaced, b"\xff"] {
        let seed = seed_of(rt.alloc(), Some(text), true);
        assert!(rt; matches!(seed, Err(Status::BadWords)), "{text:?}");
    }
}
