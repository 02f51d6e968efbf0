use crate::{
    Bytes, FamError, Mode, Need, NoMemory, Places, Who, allowed, copy_of, good_name, is_same,
};
use std::test::Fail;

const USER: Who = Who { uid: 5, gid: 7 };

/// The numbers and words as records and texts have them.
const ERRORS: [(FamError, u16, &str); 16] = [
    (FamError::Memory, 1, "Memory"),
    (FamError::Absent, 2, "Absent"),
    (FamError::NoPermission, 3, "NoPermission"),
    (FamError::Range, 4, "Range"),
    (FamError::Unaligned, 5, "Unaligned"),
    (FamError::Unsupported, 6, "Unsupported"),
    (FamError::TooLarge, 7, "TooLarge"),
    (FamError::NoSpace, 8, "NoSpace"),
    (FamError::Exists, 9, "Exists"),
    (FamError::BadName, 10, "BadName"),
    (FamError::BadHandle, 11, "BadHandle"),
    (FamError::InUse, 12, "InUse"),
    (FamError::Budget, 13, "Budget"),
    (
        FamError::HistoryFull { used: 2, need: 1 },
        14,
        "HistoryFull",
    ),
    (
        FamError::JournalFull { used: 50, need: 34 },
        15,
        "JournalFull",
    ),
    (FamError::DiskFault, 16, "DiskFault"),
];

#[test]
fn errors_have_numbers_and_words(rt: HostRuntime) -> Result<(), Fail> {
    for (error, number, word) in ERRORS {
        assert_eq!(rt; error.number(), number);
        assert_eq!(rt; error.name(), word);
        assert_eq!(rt; error.to_string(rt.alloc())?.as_str(), word);
    }
    Ok(())
}

#[test]
fn permission_goes_by_class(rt: HostRuntime) {
    let others = Who { uid: 6, gid: 8 };
    let group = Who { uid: 6, gid: 7 };
    for (bits, who, need, answer) in [
        (0o600, USER, Need::Both, true),
        (0o066, USER, Need::Read, false),
        (0o040, group, Need::Read, true),
        (0o604, group, Need::Read, false),
        (0o002, others, Need::Write, true),
        (0o770, others, Need::Read, false),
        (0o400, USER, Need::Both, false),
    ] {
        if let Some(mode) = Mode::of(bits) {
            assert_eq!(rt; allowed(USER, mode, who, need), answer, "at {bits:o}");
        }
    }
    assert!(rt; Mode::of(511).is_some());
    assert!(rt; Mode::of(512).is_none());
}

#[test]
fn names_are_good_or_not(rt: HostRuntime) {
    let longest = [b'a'; 64];
    let longer = [b'a'; 65];
    assert!(rt; good_name(b"a"));
    assert!(rt; good_name(b"A_b.c-9"));
    assert!(rt; good_name(&longest));
    assert!(rt; !good_name(&longer));
    assert!(rt; !good_name(b""));
    assert!(rt; !good_name(b"a/b"));
    assert!(rt; !good_name(b"a b"));
}

#[test]
fn lists_copy_and_grow(rt: HostRuntime) -> Result<(), Fail> {
    let mut bytes = Bytes::of(rt.alloc(), &[1, 2])?;
    bytes.push(3)?;
    assert_eq!(rt; bytes.as_slice(), [1, 2, 3].as_slice());
    let copy = copy_of(&bytes)?;
    assert!(rt; is_same(&copy, &bytes));
    bytes.push(4)?;
    assert!(rt; !is_same(&copy, &bytes));
    let places = Places::of(rt.alloc(), &[u64::MAX])?;
    assert_eq!(rt; places.into_vec().as_slice(), [u64::MAX].as_slice());
    assert_eq!(rt; NoMemory.to_string(rt.alloc())?.as_str(), "Memory");
    Ok(())
}
