//! Scripts that are played.

use crate::simulate;
use fam_disk::MemDisk;
use fam_keeper::Keeper;
use fam_model::What;
use fam_rows::common_rows;
use fam_script::parse;
use std::test::Fail;

const TOGETHER: &[u8] = b"service 1 2 64
pe 5 5
put c0 i0 62 01020304
barrier
end
pe 6 5
barrier
get c0 i0 62 4
end
stop
";

#[test]
fn plays_programs_side_by_side(rt: HostRuntime) -> Result<(), Fail> {
    for seed in 0..4u64 {
        let script = parse(rt.alloc(), TOGETHER)?;
        let rows = common_rows(rt.alloc())?;
        let mut keeper = Keeper::<MemDisk>::nothing();
        let simulated = simulate(rt.alloc(), rows, &script, seed, &mut keeper);
        assert!(rt; simulated.whole);
        // Two pieces for the put and two for the get, an issue and an answer for each, and the barrier twice.
        assert_eq!(rt; simulated.history.len(), 14);
        assert_eq!(rt; simulated.replies.len(), 6);
        let last = &simulated.history[13];
        assert!(rt; matches!(last.what, What::Leave));
    }
    Ok(())
}
