//! The longest script, and one that is a byte too long.

use crate::ending::Ending;
use crate::reading::{read_input, script_of};
use fam_base::{Bytes, Places};
use fam_io::MemSource;
use std::alloc::Global;
use std::test::Fail;

/// Appends a put of so many bytes.
fn push_put(script: &mut Vec<u8>, bytes: usize) -> Result<(), Fail> {
    script.extend_from_slice(b"put c0 i0 0 ")?;
    for _ in 0..bytes {
        script.extend_from_slice(b"00")?;
    }
    script.push(b'\n')?;
    Ok(())
}

/// A script with eight puts of as many bytes as a put may have here, and a last one of so many.
fn long_script(alloc: Global, last: usize) -> Result<Bytes, Fail> {
    let mut script = Vec::new(alloc);
    script.extend_from_slice(b"service 1 1 64\npe 5 5\n")?;
    for _ in 0..8 {
        push_put(&mut script, 1_048_566)?;
    }
    push_put(&mut script, last)?;
    script.extend_from_slice(b"end\nstop\n")?;
    Ok(Bytes::from_vec(script))
}

/// How many bytes are read from a source that has these, and how many programs their script has.
fn read(alloc: Global, bytes: Bytes) -> Result<(usize, usize), Ending> {
    let mut input = MemSource::new(bytes, Places::new(alloc));
    let bytes = read_input(alloc, &mut input)?;
    let script = script_of(alloc, &bytes)?;
    Ok((bytes.len(), script.programs.len()))
}

#[test]
fn reads_scripts_of_the_full_limit(rt: HostRuntime) -> Result<(), Fail> {
    let alloc = rt.alloc();
    let longest = long_script(alloc, 6)?;
    assert_eq!(rt; read(alloc, longest), Ok((16_777_216, 1)));
    let longer = long_script(alloc, 7)?;
    assert_eq!(rt; read(alloc, longer), Err(Ending::TooLong));
    Ok(())
}
