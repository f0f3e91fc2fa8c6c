//! Plants that are made from numbers.
ghost use Rattle.plant_gen.specs.Text.{IsPlantNumber};

use plant_gen::plant_from;
use plant_loader::{Version, load};
use std::alloc::{AllocError, Global};
use std::test::Fail;

// Whether the plant of a number is loaded.
fn is_loaded(alloc: Global, number: u32) -> Result<bool, AllocError>
    requires { IsPlantNumber number }
{
    let file = plant_from(alloc, number)?;
    Ok(load(alloc, Version::One, file.as_slice()).is_ok())
}

// The numbers take each count of controllers and each count of networks.
#[test]
fn no_number_stands_for_a_plant_that_is_refused(rt: HostRuntime) -> Result<(), Fail> {
    for number in 1..601 {
        assert!(rt; is_loaded(rt.alloc(), number)?, "{number}");
    }
    Ok(())
}
