//! The text of an address: `192.0.2.7:5000`, `[20010db8000000000000000000000001]:9`.

use crate::address::Addr;
use std::fmt;

/// A byte as two hexadecimal digits, in lower case.
#[derive(Clone, Copy)]
struct HexByte(u8);

impl fmt::Display for HexByte {
    ghost use Rattle.std.specs.Prelude.{Some};
    ghost use Rattle.addresses.specs.AddressTexts.{hex_digits};

    ghost output = { λ h. Some (hex_digits h.0) };

    fn fmt<W: fmt::Write>(&self, f: &mut fmt::Formatter<W>) -> fmt::Result {
        let byte = self.0;
        write!(f, "{byte:02x}")
    }
}

/// Bytes as two hexadecimal digits each.
#[derive(Clone, Copy)]
struct HexBytes<'a>(&'a [u8]);

impl fmt::Display for HexBytes<'_> {
    ghost use Rattle.std.specs.Prelude.{Some};
    ghost use Rattle.std.specs.List.{flat_map};
    ghost use Rattle.addresses.specs.AddressTexts.{hex_digits};

    ghost output = { λ h. Some (flat_map hex_digits h.0.now) };

    fn fmt<W: fmt::Write>(&self, f: &mut fmt::Formatter<W>) -> fmt::Result {
        for byte in self.0 {
            let byte = HexByte(*byte);
            write!(f, "{byte}")?;
        }
        Ok(())
    }
}

impl fmt::Display for Addr {
    ghost use Rattle.std.specs.Prelude.{Some};
    ghost use Rattle.addresses.specs.AddressTexts.{address_text};

    ghost output = { λ a. Some (address_text a) };

    fn fmt<W: fmt::Write>(&self, f: &mut fmt::Formatter<W>) -> fmt::Result {
        match self {
            Addr::V4 {
                ip: [a, b, c, d],
                port,
            } => write!(f, "{a}.{b}.{c}.{d}:{port}"),
            Addr::V6 { ip, port } => {
                let ip = HexBytes(ip);
                write!(f, "[{ip}]:{port}")
            }
        }
    }
}
