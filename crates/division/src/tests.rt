// The words that a rest and a refusal are printed as.
use crate::{Ending, Refused};
use std::alloc::AllocError;

#[test]
fn endings(rt: HostRuntime) -> Result<(), AllocError> {
    assert_eq!(rt; Ending::Empty.to_string(rt.alloc())?.as_str(), "empty");
    assert_eq!(rt; Ending::Waiting.to_string(rt.alloc())?.as_str(), "waiting");
    assert_eq!(rt;
        Ending::Misshapen.to_string(rt.alloc())?.as_str(),
        "misshapen"
    );
    Ok(())
}

#[test]
fn refusals(rt: HostRuntime) -> Result<(), AllocError> {
    assert_eq!(rt; Refused::Uneven.to_string(rt.alloc())?.as_str(), "uneven");
    assert_eq!(rt;
        Refused::TooLong.to_string(rt.alloc())?.as_str(),
        "too-long"
    );
    Ok(())
}
