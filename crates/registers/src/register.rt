//! The registers that the controller knows, each by its index.
ghost use Rattle.std.specs.Prelude.{◌≡◌};
ghost use Rattle.link.specs.declared.Item.TheVariants.{Index};
ghost use Rattle.registers.specs.Register.{Decodes, register_number};

use link::Item;

#[derive(Clone, Copy, Debug, PartialEq, Eq, Hash)]
pub enum Register {
    /// mode and BGR
    EntryMode = 0x03,
    /// sleep
    Power = 0x10,
    /// the place, as an address
    Address = 0x21,
    /// where colours go: no register takes a word there
    Colours = 0x22,
    /// the mask of green and blue
    GreenBlueMask = 0x23,
    RedMask = 0x24,
    /// the window's columns and rows
    Columns = 0x44,
    Rows = 0x45,
}

/// An index that names no register here.
#[derive(Clone, Copy, Debug, PartialEq, Eq, Hash)]
pub struct UnknownRegister(pub u8);

impl TryFrom<u8> for Register {
    type Error = UnknownRegister;

    ghost try_from_gives = { Decodes };

    fn try_from(index: u8) -> Result<Register, UnknownRegister> {
        match index {
            0x03 => Ok(Register::EntryMode),
            0x10 => Ok(Register::Power),
            0x21 => Ok(Register::Address),
            0x22 => Ok(Register::Colours),
            0x23 => Ok(Register::GreenBlueMask),
            0x24 => Ok(Register::RedMask),
            0x44 => Ok(Register::Columns),
            0x45 => Ok(Register::Rows),
            _ => Err(UnknownRegister(index)),
        }
    }
}

impl From<Register> for u8 {
    ghost from_gives = { λ register index. index ≡ register_number register };

    fn from(register: Register) -> u8 {
        register as u8
    }
}

// The item that names a register.
impl From<Register> for Item {
    ghost from_gives = { λ register item. item ≡ Index (register_number register) };

    fn from(register: Register) -> Item {
        Item::Index(register.into())
    }
}
