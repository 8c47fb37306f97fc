// A cursor over bytes.
ghost use Rattle.std.specs.Prelude.{◌≡◌, ◌+◌, ◌^◌, ◌<◌, ◌++◌, ◌↔◌, [], length, IfOk, IfErr, OnOk, OnErr, IsOk, IsErr};
ghost use Rattle.zc_wire.specs.Numbers.{u32_bytes, u64_bytes, u32_of, u64_of};

use crate::WireFault;
use byteorder::{BigEndian, ByteOrder};
use std::marker::Model;

/// Bytes that are read from the front.
///
/// A read that fails takes nothing: the cursor stays where it is.
#[derive(Drop)]
pub struct Cursor<'a> {
    at: u64,
    left: &'a [u8],
}

impl<'a> Model for Cursor<'a> {
    ghost use Rattle.std.specs.Prelude.{◌+◌, ◌^◌, ◌<◌, length};
    ghost use Rattle.zc_wire.specs.Cursor.{Reading};

    ghost Value = { Reading };

    ghost view = { λ cursor. record { at = cursor.at; left = cursor.left.now } };

    ghost invariant = { λ cursor. cursor.at + length cursor.left.now < 2 ^ 63 };
}

impl<'a> Cursor<'a> {
    /// A cursor before the first of the bytes.
    pub fn new(bytes: &'a [u8]) -> Cursor<'a>
        ensures { result ≡ record { at = 0; left = bytes.now } }
    {
        Cursor { at: 0, left: bytes }
    }

    /// How many bytes are read so far.
    pub fn at(&self) -> u64
        ensures value { result ≡ self.now.at }
        ensures bounded { result + length self.now.left < 2 ^ 63 }
    {
        self.at
    }

    /// The next `n` bytes. `Short` where fewer are left.
    pub fn take(&mut self, n: usize) -> Result<&'a [u8], WireFault>
        ensures read { IfOk result (λ bytes. self.old.left ≡ bytes.now ++ self.new.left) }
        ensures width { IfOk result (λ bytes. length bytes.now ≡ n) }
        ensures onward { OnOk result (self.new.at ≡ self.old.at + n) }
        ensures rest { OnOk result (length self.old.left ≡ length self.new.left + n) }
        ensures short { IsErr result ↔ (length self.old.left < n) }
        ensures fault { IfErr result (λ fault. fault ≡ WireFault.Short self.old.at) }
        ensures stays { OnErr result (self.new ≡ self.old) }
    {
        if self.left.len() < n {
            return Err(WireFault::Short { at: self.at });
        }
        let (front, back) = self.left.split_at(n);
        self.left = back;
        self.at += n as u64;
        Ok(front)
    }

    /// The number that the next four bytes spell. `Short` where fewer are left.
    pub fn u32(&mut self) -> Result<u32, WireFault>
        ensures read { IfOk result (λ number. self.old.left ≡ u32_bytes number ++ self.new.left) }
        ensures value { IfOk result (λ number. number ≡ u32_of self.old.left) }
        ensures onward { OnOk result (self.new.at ≡ self.old.at + 4) }
        ensures rest { OnOk result (length self.old.left ≡ length self.new.left + 4) }
        ensures short { IsErr result ↔ (length self.old.left < 4) }
        ensures fault { IfErr result (λ fault. fault ≡ WireFault.Short self.old.at) }
        ensures stays { OnErr result (self.new ≡ self.old) }
    {
        match self.take(4) {
            Ok(bytes) => Ok(u32_in(bytes)),
            Err(fault) => Err(fault),
        }
    }

    /// The number that the next eight bytes spell. `Short` where fewer are left.
    pub fn u64(&mut self) -> Result<u64, WireFault>
        ensures read { IfOk result (λ number. self.old.left ≡ u64_bytes number ++ self.new.left) }
        ensures value { IfOk result (λ number. number ≡ u64_of self.old.left) }
        ensures onward { OnOk result (self.new.at ≡ self.old.at + 8) }
        ensures rest { OnOk result (length self.old.left ≡ length self.new.left + 8) }
        ensures short { IsErr result ↔ (length self.old.left < 8) }
        ensures fault { IfErr result (λ fault. fault ≡ WireFault.Short self.old.at) }
        ensures stays { OnErr result (self.new ≡ self.old) }
    {
        match self.take(8) {
            Ok(bytes) => Ok(u64_in(bytes)),
            Err(fault) => Err(fault),
        }
    }

    /// Whether all bytes are read. `Trailing` where some are left.
    pub fn end(&self) -> Result<(), WireFault>
        ensures all { IsOk result ↔ (self.now.left ≡ []) }
        ensures fault { IfErr result (λ fault. fault ≡ WireFault.Trailing self.now.at) }
    {
        if self.left.is_empty() {
            Ok(())
        } else {
            Err(WireFault::Trailing { at: self.at })
        }
    }
}

// The number that four bytes spell.
#[tactic(auto, unfolding(crate::specs::Numbers::u32_of))]
pub(crate) fn u32_in(bytes: &[u8]) -> u32
    requires { length bytes.now ≡ 4 }
    ensures spelled { u32_bytes result ≡ bytes.now }
    ensures value { result ≡ u32_of bytes.now }
{
    BigEndian::read_u32(bytes)
}

// The number that eight bytes spell.
#[tactic(auto, unfolding(crate::specs::Numbers::u64_of))]
pub(crate) fn u64_in(bytes: &[u8]) -> u64
    requires { length bytes.now ≡ 8 }
    ensures spelled { u64_bytes result ≡ bytes.now }
    ensures value { result ≡ u64_of bytes.now }
{
    BigEndian::read_u64(bytes)
}
