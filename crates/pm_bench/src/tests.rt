//! The checksums were computed apart from the code, from the definitions.
use crate::orders::{Call, Order, Shape};
use crate::work::run;
use std::test::Fail;

#[test]
fn checksums_of_fifty(rt: HostRuntime) -> Result<(), Fail> {
    let rows = [
        (Call::Code, 8_337_462_421_909_466_322),
        (Call::Arrange, 10_974_283_717_180_151_761),
        (Call::Choices(Shape::Drawn), 18_230_380_051_386_874_815),
        (Call::Choices(Shape::Path), 13_186_486_132_531_183_716),
        (Call::Tree(Shape::Drawn), 50),
        (Call::Grow(Shape::Drawn), 17_889_168_902_009_056_451),
        (Call::Grow(Shape::Path), 1_426_907_975_712_174_553),
        (Call::Ungrow(Shape::Drawn), 18_230_380_051_386_874_815),
        (Call::Parts, 12_701_540_523_255_620_110),
        (Call::Ungrow(Shape::Path), 13_186_486_132_531_183_716),
    ];
    for (call, expected) in rows {
        let found: u64 = run(rt.alloc(), &Order { call, size: 50 })?;
        assert_eq!(rt; found, expected);
    }
    Ok(())
}
