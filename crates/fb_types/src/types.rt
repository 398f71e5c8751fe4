ghost use Rattle.std.specs.Prelude.{◌≡◌};
ghost use Rattle.fb_types.specs.SchemaText.{type_named};
ghost use Rattle.fb_types.specs.Types.{width_of, ends_of, type_name};

/// The type of a column: a whole number with or without a sign, one of a few words, or any text.
#[derive(Clone, Copy, Debug, PartialEq, Eq)]
pub enum ColType {
    Byte,
    UByte,
    Short,
    UShort,
    Int,
    UInt,
    Long,
    ULong,
    Category,
    Text,
}

pub(crate) const TYPES: [ColType; 10] = [
    ColType::Byte,
    ColType::UByte,
    ColType::Short,
    ColType::UShort,
    ColType::Int,
    ColType::UInt,
    ColType::Long,
    ColType::ULong,
    ColType::Category,
    ColType::Text,
];

impl ColType {
    /// Bytes that a value takes in a values file; `None` for `Text`.
    pub fn width(self) -> Option<u32>
        ensures { result ≡ width_of self }
    {
        match self {
            ColType::Byte | ColType::UByte => Some(1),
            ColType::Short | ColType::UShort => Some(2),
            ColType::Int | ColType::UInt | ColType::Category => Some(4),
            ColType::Long | ColType::ULong => Some(8),
            ColType::Text => None,
        }
    }

    /// The least and the greatest value of a whole type; `None` for `Category` and `Text`.
    pub fn ends(self) -> Option<(i128, i128)>
        ensures { result ≡ ends_of self }
    {
        match self {
            ColType::Byte => Some((i8::MIN as i128, i8::MAX as i128)),
            ColType::UByte => Some((0, u8::MAX as i128)),
            ColType::Short => Some((i16::MIN as i128, i16::MAX as i128)),
            ColType::UShort => Some((0, u16::MAX as i128)),
            ColType::Int => Some((i32::MIN as i128, i32::MAX as i128)),
            ColType::UInt => Some((0, u32::MAX as i128)),
            ColType::Long => Some((i64::MIN as i128, i64::MAX as i128)),
            ColType::ULong => Some((0, u64::MAX as i128)),
            ColType::Category | ColType::Text => None,
        }
    }

    /// The word of the type in a schema text.
    #[tactic(auto, unfolding(crate::specs::Types::type_name))]
    pub fn name(self) -> &'static str
        ensures { result.now ≡ type_name self }
    {
        match self {
            ColType::Byte => "byte",
            ColType::UByte => "ubyte",
            ColType::Short => "short",
            ColType::UShort => "ushort",
            ColType::Int => "int",
            ColType::UInt => "uint",
            ColType::Long => "long",
            ColType::ULong => "ulong",
            ColType::Category => "category",
            ColType::Text => "text",
        }
    }

    /// The type of that word in a schema text; `None` where no type has it.
    #[tactic(auto, unfolding(crate::specs::SchemaText::type_named))]
    pub fn named(word: &[u8]) -> Option<ColType>
        ensures { result ≡ type_named word.now }
    {
        TYPES
            .iter()
            .copied()
            .find(|ty| ty.name().as_bytes() == word)
    }
}
