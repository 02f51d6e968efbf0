//! Rooms of a small region, taken and given back in turn.

ghost use Rattle.std.specs.Prelude.{[]};
ghost use Rattle.region_alloc.specs.Gaps.{Holds};

use crate::{Extents, InUse, NoSpace};
use fam_base::NoMemory;
use std::process::Abort;
use std::test::Fail;

/// Reserves, then takes room for `n` bytes.
fn placed(region: &mut Extents, n: u64) -> Result<Result<u64, NoSpace>, NoMemory> {
    region.reserve()?;
    Ok(region.place(n))
}

/// Takes room in a region that has none yet, and gives it back.
fn tried(region: &mut Extents, n: u64) -> Result<Option<u64>, NoMemory>
    requires { Holds region.old [] }
{
    region.reserve()?;
    match region.place(n) {
        Ok(base) => {
            region.free(base, n);
            Ok(Some(base))
        }
        Err(NoSpace) => Ok(None),
    }
}

#[test]
fn fills_the_region_from_its_least_base(rt: HostRuntime) -> Result<(), Fail> {
    let mut region = Extents::new(rt.alloc(), 256);
    assert_eq!(rt; tried(&mut region, 256)?, Some(0));
    assert_eq!(rt; placed(&mut region, 64)?, Ok(0));
    assert_eq!(rt; placed(&mut region, 1)?, Ok(64));
    assert!(rt; region.fits(128, 128));
    assert!(rt; !region.fits(129, 128));
    assert!(rt; !region.fits(1, 64));
    assert_eq!(rt; placed(&mut region, 65)?, Ok(128));
    assert_eq!(rt; placed(&mut region, 0)?, Err(NoSpace));
    assert_eq!(rt; region.resize(255), Err(InUse));
    assert_eq!(rt; region.resize(256), Ok(()));
    assert_eq!(rt; region.least_base(1), None);
    Ok(())
}
