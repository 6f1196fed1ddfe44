//! Types of fixed size with their measures, so that no type is gone through twice.

ghost use Rattle.std.specs.Prelude.{◌≡◌, ◌<◌, ◌≤◌, ◌+◌, ◌*◌, ◌++◌, ℕ, List, map, IfOk, OnOk, IfErr, vec_len, [], ◌∷◌};
ghost use Rattle.std.specs.Bool.{OnFalse};
ghost use Rattle.fl_interface.specs.Interface.{TheType, scalar, enumeration, structure, array, fields_from, type_of};
ghost use Rattle.fl_interface.specs.Sizes.{size_of, align_of, end_after, greatest_align};
ghost use Rattle.fl_check.specs.declared.fault.CheckFault.TheVariants.{Memory};
ghost use Rattle.fl_interface.specs.Depth.{depth_of, array_depth_of, deepest, deepest_array, is_too_big};

use crate::fault::CheckFault;
use fl_interface::{
    ENUM_SIZE, FixedType, MAX_NESTED_ARRAYS, MAX_TYPE_DEPTH, MAX_TYPE_SIZE, Scalar, duplicate_type,
};
use std::alloc::{AllocError, Global};
use std::sync::Arc;

/// A type, its size and alignment in bytes, how deep structs and fixed arrays nest in it, and how
/// many fixed arrays stand on one path through it.
#[derive(Drop)]
pub struct Measured {
    pub fixed: FixedType,
    pub size: u32,
    pub align: u32,
    pub depth: u32,
    pub arrays: u32,
    ghost sized: { size ≡ size_of (type_of fixed) },
    ghost aligned: { align ≡ align_of (type_of fixed) },
    ghost nested: { depth ≡ depth_of (type_of fixed) },
    ghost arrayed: { arrays ≡ array_depth_of (type_of fixed) },
    ghost some_align: { 0 < align },
    ghost few_align: { align ≤ 8 },
}

impl Measured {
    pub fn of_scalar(kind: Scalar) -> Measured
        ensures stands { type_of result.fixed ≡ scalar kind }
        ensures size { result.size ≤ 4096 }
        ensures depth { result.depth ≤ 16 }
        ensures arrays { result.arrays ≤ 7 }
    {
        let bytes = kind.size();
        Measured {
            fixed: FixedType::Scalar(kind),
            size: bytes,
            align: bytes,
            depth: 0,
            arrays: 0,
        }
    }

    pub fn of_enum(count: u32) -> Measured
        ensures stands { type_of result.fixed ≡ enumeration count }
    {
        Measured {
            fixed: FixedType::Enumeration(count),
            size: ENUM_SIZE,
            align: ENUM_SIZE,
            depth: 0,
            arrays: 0,
        }
    }

    pub fn duplicate(&self) -> Result<Measured, AllocError>
        ensures equal { IfOk result (λ m. type_of m.fixed ≡ type_of self.now.fixed) }
        ensures size { IfOk result (λ m. m.size ≡ self.now.size) }
        ensures depth { IfOk result (λ m. m.depth ≡ self.now.depth) }
        ensures arrays { IfOk result (λ m. m.arrays ≡ self.now.arrays) }
    {
        let fixed = duplicate_type(&self.fixed)?;
        Ok(Measured {
            fixed,
            size: self.size,
            align: self.align,
            depth: self.depth,
            arrays: self.arrays,
        })
    }

    /// The fixed array of so many of these.
    pub fn array(self, alloc: Global, count: u32) -> Result<Measured, AllocError>
        requires few { count ≤ 1024 }
        requires size { self.size ≤ 4096 }
        requires depth { self.depth ≤ 16 }
        requires arrays { self.arrays ≤ 7 }
        ensures stands { IfOk result (λ m. type_of m.fixed ≡ array count (type_of self.fixed)) }
        ensures size { IfOk result (λ m. m.size ≤ 4194304) }
        ensures depth { IfOk result (λ m. m.depth ≤ 17) }
        ensures arrays { IfOk result (λ m. m.arrays ≤ 8) }
    {
        let size = count * self.size;
        let align = self.align;
        let depth = self.depth + 1;
        let arrays = self.arrays + 1;
        let element = Arc::new(alloc, self.fixed)?;
        Ok(Measured {
            fixed: FixedType::Array(count, element),
            size,
            align,
            depth,
            arrays,
        })
    }

    /// Whether it has over 4,096 bytes or nests too deep.
    pub fn is_too_big(&self) -> bool
        ensures exact { result ≡ is_too_big (type_of self.now.fixed) }
        ensures size { OnFalse result (self.now.size ≤ 4096) }
        ensures depth { OnFalse result (self.now.depth ≤ 16) }
        ensures arrays { OnFalse result (self.now.arrays ≤ 7) }
    {
        self.size > MAX_TYPE_SIZE
            || (self.depth > MAX_TYPE_DEPTH || self.arrays > MAX_NESTED_ARRAYS)
    }
}

/// The fields of a struct so far: their types, where the last one ends, and their greatest measures.
#[derive(Drop)]
pub struct StructFields {
    pub types: Vec<FixedType>,
    pub end: u32,
    pub align: u32,
    pub depth: u32,
    pub arrays: u32,
    ghost ended: { (ts : List TheType) → end_after 0 (fields_from (map type_of types.items ++ ts)) ≡ end_after end (fields_from ts) },
    ghost aligned: { greatest_align (fields_from (map type_of types.items)) ≡ align },
    ghost nested: { deepest (fields_from (map type_of types.items)) ≡ depth },
    ghost arrayed: { deepest_array (fields_from (map type_of types.items)) ≡ arrays },
    ghost some_align: { 0 < align },
    ghost few_align: { align ≤ 8 },
    ghost bounded: { end ≤ 4194312 * vec_len types },
    ghost shallow: { depth ≤ 17 },
    ghost few_arrays: { arrays ≤ 8 },
}

impl StructFields {
    pub fn new(alloc: Global) -> StructFields
        ensures none { map type_of result.types.items ≡ [] }
        ensures len { vec_len result.types ≡ 0 }
    {
        StructFields {
            types: Vec::new(alloc),
            end: 0,
            align: 1,
            depth: 0,
            arrays: 0,
        }
    }

    /// Adds a field at the next multiple of its alignment.
    pub fn push(&mut self, field: Measured) -> Result<(), CheckFault>
        requires few { vec_len self.old.types < 32 }
        requires size { field.size ≤ 4194304 }
        requires depth { field.depth ≤ 17 }
        requires arrays { field.arrays ≤ 8 }
        ensures more { OnOk result (map type_of self.new.types.items ≡ map type_of self.old.types.items ++ type_of field.fixed ∷ []) }
        ensures len { OnOk result (vec_len self.new.types ≡ vec_len self.old.types + 1) }
        ensures memory { IfErr result (λ e. e ≡ Memory) }
    {
        let end = self.end.next_multiple_of(field.align) + field.size;
        self.types.push(field.fixed)?;
        self.end = end;
        self.align = self.align.max(field.align);
        self.depth = self.depth.max(field.depth);
        self.arrays = self.arrays.max(field.arrays);
        Ok(())
    }

    /// The struct of these fields: its size is rounded up to its alignment.
    pub fn into_struct(self, alloc: Global) -> Result<Measured, AllocError>
        requires few { vec_len self.types ≤ 32 }
        ensures stands { IfOk result (λ m. type_of m.fixed ≡ structure (fields_from (map type_of self.types.items))) }
    {
        let align = self.align;
        let size = self.end.next_multiple_of(align);
        let depth = self.depth + 1;
        let arrays = self.arrays;
        let fields = Arc::new(alloc, self.types)?;
        Ok(Measured {
            fixed: FixedType::Structure(fields),
            size,
            align,
            depth,
            arrays,
        })
    }
}
