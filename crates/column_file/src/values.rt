//! The values file: one number a row.

ghost use Rattle.std.specs.Prelude.{◌≡◌, ◌*◌, ◌≤ℤ◌, ℤ, List, All, IfErr, IsErrOf, IsSome, OnOk, length};
ghost use Rattle.fb_outside.specs.Causes.{HasCause};
ghost use Rattle.fb_outside.specs.Files.{PutLeaves, Puts, SameFiles};
ghost use Rattle.fb_types.specs.Types.{width_of};
ghost use Rattle.column_file.specs.Opening.{StopsWriting};
ghost use Rattle.column_file.specs.Values.{ValueFits, numbers_of, values_bytes, width_in};

use crate::fault::ColFault;
use crate::numbers::{Code, Number, bytes_of, numbers_in};
use fb_outside::{FileName, Store, Trouble};
use fb_types::ColType;
use std::alloc::Global;

/// Writes the values file of a column: one number of the type's width a row.
pub fn write_column<S: Store>(
    alloc: Global,
    store: &mut S,
    name: &FileName,
    ty: ColType,
    values: &[i128],
) -> Result<(), ColFault>
    requires width { IsSome (width_of ty) }
    requires values { All (λ value. ValueFits value ty) values.now }
    ensures cause { HasCause (S.faults store.old) (S.faults store.new) (IsErrOf result ColFault.Store) }
    ensures ok { OnOk result (Puts (S.files store.old) (S.files store.new) name.now (values_bytes ty values.now)) }
    ensures store { IsErrOf result ColFault.Store → PutLeaves name.now (values_bytes ty values.now) (S.files store.old) (S.files store.new) }
    ensures memory { IsErrOf result ColFault.OutOfMemory → SameFiles (S.files store.old) (S.files store.new) }
    ensures stop { IfErr result StopsWriting }
    ensures reads { S.reads store.new ≡ S.reads store.old }
{
    match ty {
        ColType::Byte => put_numbers::<i8, 1, S>(alloc, store, name, values),
        ColType::UByte => put_numbers::<u8, 1, S>(alloc, store, name, values),
        ColType::Short => put_numbers::<i16, 2, S>(alloc, store, name, values),
        ColType::UShort => put_numbers::<u16, 2, S>(alloc, store, name, values),
        ColType::Int => put_numbers::<i32, 4, S>(alloc, store, name, values),
        ColType::UInt => put_numbers::<u32, 4, S>(alloc, store, name, values),
        ColType::Long => put_numbers::<i64, 8, S>(alloc, store, name, values),
        ColType::ULong => put_numbers::<u64, 8, S>(alloc, store, name, values),
        ColType::Category => put_numbers::<Code, 4, S>(alloc, store, name, values),
        ColType::Text => unreachable!(),
    }
}

fn put_numbers<T: Number<W>, const W: usize, S: Store>(
    alloc: Global,
    store: &mut S,
    name: &FileName,
    values: &[i128],
) -> Result<(), ColFault>
    requires { All (λ value. ValueFits value T.ty) values.now }
    ensures cause { HasCause (S.faults store.old) (S.faults store.new) (IsErrOf result ColFault.Store) }
    ensures ok { OnOk result (Puts (S.files store.old) (S.files store.new) name.now (values_bytes T.ty values.now)) }
    ensures store { IsErrOf result ColFault.Store → PutLeaves name.now (values_bytes T.ty values.now) (S.files store.old) (S.files store.new) }
    ensures memory { IsErrOf result ColFault.OutOfMemory → SameFiles (S.files store.old) (S.files store.new) }
    ensures stop { IfErr result StopsWriting }
    ensures reads { S.reads store.new ≡ S.reads store.old }
{
    let Ok(pieces) = bytes_of::<T, W>(alloc, values) else {
        return Err(ColFault::OutOfMemory);
    };
    put_bytes(store, name, pieces.as_flattened())
}

/// Puts the bytes of a column's file.
pub(crate) fn put_bytes<S: Store>(
    store: &mut S,
    name: &FileName,
    bytes: &[u8],
) -> Result<(), ColFault>
    ensures cause { HasCause (S.faults store.old) (S.faults store.new) (IsErrOf result ColFault.Store) }
    ensures ok { OnOk result (Puts (S.files store.old) (S.files store.new) name.now bytes.now) }
    ensures store { IsErrOf result ColFault.Store → PutLeaves name.now bytes.now (S.files store.old) (S.files store.new) }
    ensures memory { IsErrOf result ColFault.OutOfMemory → SameFiles (S.files store.old) (S.files store.new) }
    ensures stop { IfErr result StopsWriting }
    ensures reads { S.reads store.new ≡ S.reads store.old }
{
    match store.put(name.as_str(), bytes) {
        Ok(()) => Ok(()),
        Err(Trouble::Failed) => Err(ColFault::Store),
        Err(Trouble::OutOfMemory) => Err(ColFault::OutOfMemory),
    }
}

/// The numbers that the bytes of a part of a values file spell, as many as `out` has place for.
pub fn numbers_of_bytes(ty: ColType, bytes: &[u8], out: &mut [i128])
    requires width { IsSome (width_of ty) }
    requires bytes { length bytes.now ≡ length out.old * width_in ty }
    ensures numbers { out.new ≡ numbers_of ty (length out.old) bytes.now }

    // Written again, the numbers are these bytes.
    ensures fit { All (λ number. ValueFits number ty) out.new }
    ensures spelled { values_bytes ty out.new ≡ bytes.now }
{
    match ty {
        ColType::Byte => numbers_in::<i8, 1>(bytes, out),
        ColType::UByte => numbers_in::<u8, 1>(bytes, out),
        ColType::Short => numbers_in::<i16, 2>(bytes, out),
        ColType::UShort => numbers_in::<u16, 2>(bytes, out),
        ColType::Int => numbers_in::<i32, 4>(bytes, out),
        ColType::UInt => numbers_in::<u32, 4>(bytes, out),
        ColType::Long => numbers_in::<i64, 8>(bytes, out),
        ColType::ULong => numbers_in::<u64, 8>(bytes, out),
        ColType::Category => numbers_in::<Code, 4>(bytes, out),
        ColType::Text => unreachable!(),
    }
}
