//! Numbers of a fixed width as bytes, the lowest byte first: one loop for all widths, which knows its width when it is
//! compiled.

ghost use Rattle.std.specs.Prelude.{◌≡◌, ◌*◌, ◌≤ℤ◌, Some, All, IfOk, length, map, refl};
ghost use Rattle.fb_types.specs.declared.types.ColType.{ColType};
ghost use Rattle.fb_types.specs.declared.types.ColType.TheVariants.{Byte, UByte, Short, UShort, Int, UInt, Long, ULong, Category};
ghost use Rattle.fb_types.specs.Types.{width_of};
ghost use Rattle.column_file.specs.Values.{ValueFits, number_bytes, number_of, numbers_of, values_bytes};

use std::alloc::{AllocError, Global};

/// A machine number of `W` bytes.
pub(crate) trait Number<const W: usize> {
    /// The type of the columns whose numbers these are.
    ghost ty: { ColType };

    fn to_bytes(value: i128) -> [u8; W]
        requires { ValueFits value ty }
        ensures { result ≡ number_bytes ty value };

    fn from_bytes(bytes: &[u8; W]) -> i128
        ensures { result ≡ number_of ty bytes.now };

    ghost width: { width_of ty ≡ Some W };
}

impl Number<1> for i8 {
    ghost ty = { Byte };

    ghost width = { refl };

    #[inline(always)]
    #[tactic(auto, unfolding(crate::specs::Values::number_bytes))]
    fn to_bytes(value: i128) -> [u8; 1] {
        (value as i8).to_le_bytes()
    }

    #[inline(always)]
    #[tactic(auto, unfolding(crate::specs::Values::number_of))]
    fn from_bytes(bytes: &[u8; 1]) -> i128 {
        i8::from_le_bytes(*bytes) as i128
    }
}

impl Number<1> for u8 {
    ghost ty = { UByte };

    ghost width = { refl };

    #[inline(always)]
    #[tactic(auto, unfolding(crate::specs::Values::number_bytes))]
    fn to_bytes(value: i128) -> [u8; 1] {
        (value as u8).to_le_bytes()
    }

    #[inline(always)]
    #[tactic(auto, unfolding(crate::specs::Values::number_of))]
    fn from_bytes(bytes: &[u8; 1]) -> i128 {
        u8::from_le_bytes(*bytes) as i128
    }
}

impl Number<2> for i16 {
    ghost ty = { Short };

    ghost width = { refl };

    #[inline(always)]
    #[tactic(auto, unfolding(crate::specs::Values::number_bytes))]
    fn to_bytes(value: i128) -> [u8; 2] {
        (value as i16).to_le_bytes()
    }

    #[inline(always)]
    #[tactic(auto, unfolding(crate::specs::Values::number_of))]
    fn from_bytes(bytes: &[u8; 2]) -> i128 {
        i16::from_le_bytes(*bytes) as i128
    }
}

impl Number<2> for u16 {
    ghost ty = { UShort };

    ghost width = { refl };

    #[inline(always)]
    #[tactic(auto, unfolding(crate::specs::Values::number_bytes))]
    fn to_bytes(value: i128) -> [u8; 2] {
        (value as u16).to_le_bytes()
    }

    #[inline(always)]
    #[tactic(auto, unfolding(crate::specs::Values::number_of))]
    fn from_bytes(bytes: &[u8; 2]) -> i128 {
        u16::from_le_bytes(*bytes) as i128
    }
}

impl Number<4> for i32 {
    ghost ty = { Int };

    ghost width = { refl };

    #[inline(always)]
    #[tactic(auto, unfolding(crate::specs::Values::number_bytes))]
    fn to_bytes(value: i128) -> [u8; 4] {
        (value as i32).to_le_bytes()
    }

    #[inline(always)]
    #[tactic(auto, unfolding(crate::specs::Values::number_of))]
    fn from_bytes(bytes: &[u8; 4]) -> i128 {
        i32::from_le_bytes(*bytes) as i128
    }
}

impl Number<4> for u32 {
    ghost ty = { UInt };

    ghost width = { refl };

    #[inline(always)]
    #[tactic(auto, unfolding(crate::specs::Values::number_bytes))]
    fn to_bytes(value: i128) -> [u8; 4] {
        (value as u32).to_le_bytes()
    }

    #[inline(always)]
    #[tactic(auto, unfolding(crate::specs::Values::number_of))]
    fn from_bytes(bytes: &[u8; 4]) -> i128 {
        u32::from_le_bytes(*bytes) as i128
    }
}

impl Number<8> for i64 {
    ghost ty = { Long };

    ghost width = { refl };

    #[inline(always)]
    #[tactic(auto, unfolding(crate::specs::Values::number_bytes))]
    fn to_bytes(value: i128) -> [u8; 8] {
        (value as i64).to_le_bytes()
    }

    #[inline(always)]
    #[tactic(auto, unfolding(crate::specs::Values::number_of))]
    fn from_bytes(bytes: &[u8; 8]) -> i128 {
        i64::from_le_bytes(*bytes) as i128
    }
}

impl Number<8> for u64 {
    ghost ty = { ULong };

    ghost width = { refl };

    #[inline(always)]
    #[tactic(auto, unfolding(crate::specs::Values::number_bytes))]
    fn to_bytes(value: i128) -> [u8; 8] {
        (value as u64).to_le_bytes()
    }

    #[inline(always)]
    #[tactic(auto, unfolding(crate::specs::Values::number_of))]
    fn from_bytes(bytes: &[u8; 8]) -> i128 {
        u64::from_le_bytes(*bytes) as i128
    }
}

/// A category's code: it stands as a number of 32 bits without a sign.
pub(crate) struct Code;

impl Number<4> for Code {
    ghost ty = { Category };

    ghost width = { refl };

    #[inline(always)]
    #[tactic(auto, unfolding(crate::specs::Values::number_bytes))]
    fn to_bytes(value: i128) -> [u8; 4] {
        (value as u32).to_le_bytes()
    }

    #[inline(always)]
    #[tactic(auto, unfolding(crate::specs::Values::number_of))]
    fn from_bytes(bytes: &[u8; 4]) -> i128 {
        u32::from_le_bytes(*bytes) as i128
    }
}

/// The bytes of the values, each as such a number.
pub(crate) fn bytes_of<T: Number<W>, const W: usize>(
    alloc: Global,
    values: &[i128],
) -> Result<Vec<[u8; W]>, AllocError>
    requires { All (λ value. ValueFits value T.ty) values.now }
    ensures { IfOk result (λ pieces. pieces.items ≡ map (number_bytes T.ty) values.now) }
{
    let mut pieces = Vec::with_capacity(alloc, values.len())?;
    for value in values {
        pieces.push_reserved(T::to_bytes(*value));
    }
    Ok(pieces)
}

/// The numbers that the bytes spell.
pub(crate) fn numbers_in<T: Number<W>, const W: usize>(bytes: &[u8], out: &mut [i128])
    requires { length bytes.now ≡ length out.old * W }
    ensures numbers { out.new ≡ numbers_of T.ty (length out.old) bytes.now }
    ensures fit { All (λ number. ValueFits number T.ty) out.new }
    ensures spelled { values_bytes T.ty out.new ≡ bytes.now }
{
    let (pieces, _) = bytes.as_chunks::<W>();
    for (i, number) in out.iter_mut().enumerate() {
        *number = T::from_bytes(&pieces[i]);
    }
}
