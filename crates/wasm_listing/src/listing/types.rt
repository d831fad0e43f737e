//! Text of types.
use crate::listing::{ItemNames, NameText, Types};
use std::fmt;
use wasm_modules::indices::IndexSpace;
use wasm_types::types::{
    CompositeInnerType, CompositeType, FieldType, FuncType, StorageType, SubType, ValType,
};

/// An entry of a type section, with the index of its first type. The types of a group are followed by their names.
#[derive(Clone, Copy)]
pub struct EntryText<'a> {
    /// The entry.
    pub entry: &'a Types<'a>,
    /// Index of its first type.
    pub first: u32,
    /// Names of types.
    pub names: &'a ItemNames<'a>,
}

impl fmt::Display for EntryText<'_> {
    fn fmt<W: fmt::Write>(&self, f: &mut fmt::Formatter<W>) -> fmt::Result {
        let is_group = self.entry.is_group;
        if is_group {
            write!(f, "rec")?;
        }
        let mut types = self.entry.types();
        for number in 0..self.entry.count {
            // Only memory can be missing, since the types were read before.
            let Ok((ty, _)) = types.piece::<SubType>() else {
                return Err(fmt::Error);
            };
            let index = self.first.saturating_add(number);
            let separator = if number == 0 { "" } else { "," };
            let space = if is_group { " " } else { "" };
            write!(f, "{separator}{space}type[{index}] {}", SubText(&ty))?;
            if is_group {
                write!(f, "{}", NameText(self.names.get(IndexSpace::Types, index)))?;
            }
        }
        Ok(())
    }
}

/// A type with its supertypes.
#[derive(Clone, Copy)]
struct SubText<'a>(&'a SubType);

impl fmt::Display for SubText<'_> {
    fn fmt<W: fmt::Write>(&self, f: &mut fmt::Formatter<W>) -> fmt::Result {
        let SubType {
            is_final,
            supertype_idxs,
            composite_type,
        } = self.0;
        if !*is_final || !supertype_idxs.is_empty() {
            write!(f, "sub ")?;
            if *is_final {
                write!(f, "final ")?;
            }
        }
        for index in supertype_idxs.as_slice() {
            write!(f, "{index} ")?;
        }
        write_composite(f, composite_type)
    }
}

/// Writes a composite type.
fn write_composite<W: fmt::Write>(f: &mut fmt::Formatter<W>, ty: &CompositeType) -> fmt::Result {
    if ty.shared {
        write!(f, "shared ")?;
    }
    write_index(f, "descriptor", ty.descriptor)?;
    write_index(f, "describes", ty.describes)?;
    write_inner(f, &ty.inner)
}

/// Writes a word and the index of a type, if there is one.
fn write_index<W: fmt::Write>(
    f: &mut fmt::Formatter<W>,
    word: &str,
    index: Option<u32>,
) -> fmt::Result {
    match index {
        Some(index) => write!(f, "{word} {index} "),
        None => Ok(()),
    }
}

/// Writes a composite type without what precedes its form.
fn write_inner<W: fmt::Write>(f: &mut fmt::Formatter<W>, ty: &CompositeInnerType) -> fmt::Result {
    match ty {
        CompositeInnerType::Func(ty) => write!(f, "{}", FuncText(ty)),
        CompositeInnerType::Array(ty) => write!(f, "array ({})", FieldText(ty.0)),
        CompositeInnerType::Struct(ty) => {
            write!(f, "struct (")?;
            write_fields(f, ty.fields.as_slice())?;
            write!(f, ")")
        }
        CompositeInnerType::Cont(ty) => write!(f, "cont {}", ty.0),
    }
}

/// A function type, as `func (i32, i32) -> nil`.
#[derive(Clone, Copy)]
struct FuncText<'a>(&'a FuncType);

impl fmt::Display for FuncText<'_> {
    fn fmt<W: fmt::Write>(&self, f: &mut fmt::Formatter<W>) -> fmt::Result {
        write!(f, "func ({}) -> ", ValList(self.0.params()))?;
        match self.0.results() {
            [] => write!(f, "nil"),
            [ty] => write!(f, "{ty}"),
            types => write!(f, "({})", ValList(types)),
        }
    }
}

/// Value types, with commas between them.
#[derive(Clone, Copy)]
struct ValList<'a>(&'a [ValType]);

impl fmt::Display for ValList<'_> {
    fn fmt<W: fmt::Write>(&self, f: &mut fmt::Formatter<W>) -> fmt::Result {
        for (number, ty) in self.0.iter().enumerate() {
            let separator = if number == 0 { "" } else { ", " };
            write!(f, "{separator}{ty}")?;
        }
        Ok(())
    }
}

/// Writes the types of fields, with commas between them.
fn write_fields<W: fmt::Write>(f: &mut fmt::Formatter<W>, fields: &[FieldType]) -> fmt::Result {
    for (number, field) in fields.iter().enumerate() {
        let separator = if number == 0 { "" } else { ", " };
        write!(f, "{separator}{}", FieldText(*field))?;
    }
    Ok(())
}

/// The type of a field or of an array's elements, as `mut i8`.
#[derive(Clone, Copy)]
struct FieldText(FieldType);

impl fmt::Display for FieldText {
    fn fmt<W: fmt::Write>(&self, f: &mut fmt::Formatter<W>) -> fmt::Result {
        if self.0.mutable {
            write!(f, "mut ")?;
        }
        match self.0.element_type {
            StorageType::I8 => write!(f, "i8"),
            StorageType::I16 => write!(f, "i16"),
            StorageType::Val(ty) => write!(f, "{ty}"),
        }
    }
}
