//! A listing that shows nothing. It counts the items of a section.
use crate::listing::{
    CustomText, FunctionHead, Instruction, ItemName, ItemText, Listing, Part, SectionHead, Stop,
};
use wasm_types::types::ValType;

/// A listing that shows nothing.
#[derive(Drop)]
pub struct Silent;

impl Listing for Silent {
    fn section(&mut self, _head: &SectionHead<'_>) -> Result<(), Stop> {
        Ok(())
    }

    fn item(&mut self, _part: &Part<'_>, _text: &ItemText<'_>) -> Result<(), Stop> {
        Ok(())
    }

    fn contents(&mut self, _at: usize, _bytes: &[u8]) -> Result<(), Stop> {
        Ok(())
    }

    fn custom_item(&mut self, _part: &Part<'_>, _text: &CustomText<'_>) -> Result<(), Stop> {
        Ok(())
    }

    fn function(&mut self, _head: &FunctionHead<'_>) -> Result<(), Stop> {
        Ok(())
    }

    fn locals(&mut self, _part: &Part<'_>, _count: u32, _ty: ValType) -> Result<(), Stop> {
        Ok(())
    }

    fn call(
        &mut self,
        _part: &Part<'_>,
        _instruction: &Instruction<'_>,
        _name: Option<ItemName<'_>>,
    ) -> Result<(), Stop> {
        Ok(())
    }

    fn function_end(&mut self) -> Result<(), Stop> {
        Ok(())
    }

    fn section_end(&mut self) -> Result<(), Stop> {
        Ok(())
    }
}
