//! Modules: made, cloned, and built of sections.

use super::made_again;
use std::test::Fail;
use wasm_encoder::{CustomSection, Items, Module, ModuleSection};

fn new_module(rt: &(impl AllocGlobal + Print)) -> Result<Module, Fail> {
    made_again(rt, || Module::new(rt.alloc()))
}

#[test]
fn modules_are_cloned(rt: HostRuntime) -> Result<(), Fail> {
    let module = new_module(&rt)?;
    let same = made_again(&rt, || module.try_clone())?;
    assert_eq!(rt; same.as_slice(), module.as_slice());
    Ok(())
}

#[test]
fn modules_are_built_of_sections(rt: HostRuntime) -> Result<(), Fail> {
    let types = made_again(&rt, || Items::from_slice(rt.alloc(), &[0, 1]))?;
    let sections = [
        ModuleSection::Functions(types),
        ModuleSection::Start(1),
        ModuleSection::Custom(CustomSection {
            name: "n",
            bytes: &[7],
        }),
    ];
    let module = made_again(&rt, || Module::from_sections(rt.alloc(), &sections))?;
    let expected = b"\0asm\x01\0\0\0\x03\x03\x02\x00\x01\x08\x01\x01\x00\x03\x01n\x07";
    assert_eq!(rt; module.as_slice(), expected.as_slice());
    Ok(())
}
