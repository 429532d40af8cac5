//! The example of README.md, with bytes of its own.
use crate::{packed, unpacked};
use std::alloc::Global;
use std::test::Fail;
use test_rows::bytes::numbered;

/// Whether what is packed is unpacked again.
fn comes_back(alloc: Global, bytes: &[u8]) -> Result<bool, Fail> {
    let medium = packed(alloc, bytes)?;
    let found = unpacked(alloc, medium)?;
    Ok(found.as_slice() == bytes)
}

#[test]
fn all_bytes_come_back(rt: HostRuntime) -> Result<(), Fail> {
    let bytes = numbered(rt.alloc(), 5000)?;
    assert!(rt; comes_back(rt.alloc(), &bytes)?);
    Ok(())
}
