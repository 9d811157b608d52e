//! The bytes of a descriptor: a head, a row for each member and each volume, and the partitions of each volume.
ghost use Rattle.std.specs.Prelude.{◌≡◌, ◌≤◌, ◌++◌, ◌∷◌, [], length, replicate, flat_map, IfOk, OnOk};
ghost use Rattle.std.specs.Int.{w16, w64, to_be_bytes};
ghost use Rattle.lvm_num.specs.declared.descriptor.LvRow.{LvRow};
ghost use Rattle.lvm_num.specs.Descriptor.{IsValid};
ghost use Rattle.lvm_num.specs.DescriptorBytes.{flag, mode_code, policy_code, descriptor_magic, member_bytes, volume_bytes, partition_bytes, descriptor_bytes};
ghost use Rattle.lvm_vgda.specs.Spelling.{head_bytes, row_bytes};

use byteorder::{BigEndian, ByteOrder};
use lvm_num::{Descriptor, LvRow, Memory, Mode, Policy, Pp, PvRow, Rows};
use std::alloc::{AllocError, Global};

/// The bytes of a descriptor that is valid.
pub fn encode(alloc: Global, d: &Descriptor) -> Result<Rows<u8>, Memory>
    requires { IsValid d.now }
    ensures { IfOk result (λ bytes. bytes ≡ descriptor_bytes d.now) }
{
    let mut out = head(alloc, d)?;
    put_rows(&mut out, d)?;
    Ok(Rows::new(out))
}

// What stands before the rows.
fn head(alloc: Global, d: &Descriptor) -> Result<Vec<u8>, AllocError>
    requires members { length d.now.pvs ≤ 128 }
    requires volumes { length d.now.lvs ≤ 511 }
    ensures { IfOk result (λ out. out.items ≡ head_bytes d.now) }
{
    let mut out = Vec::from_slice(alloc, &identity(d))?;
    out.extend_from_slice(d.name.as_field())?;
    out.extend_from_slice(&numbers(d))?;
    Ok(out)
}

// The rows and the partitions.
fn put_rows(out: &mut Vec<u8>, d: &Descriptor) -> Result<(), AllocError>
    ensures { OnOk result (out.new.items ≡ out.old.items ++ row_bytes d.now) }
{
    put_members(out, d.pvs.as_slice())?;
    put_volumes(out, d.lvs.as_slice())?;
    put_maps(out, d.lvs.as_slice())
}

// What stands before the name.
fn identity(d: &Descriptor) -> [u8; 12]
    ensures { result ≡ descriptor_magic d.now.big ++ to_be_bytes w64 d.now.id }
{
    let mut bytes = [0; 12];
    bytes[..4].copy_from_slice(&magic(d.big));
    BigEndian::write_u64(&mut bytes[4..], d.id);
    bytes
}

// What stands behind the name.
fn numbers(d: &Descriptor) -> [u8; 20]
    requires members { length d.now.pvs ≤ 128 }
    requires volumes { length d.now.lvs ≤ 511 }
    ensures { result ≡ to_be_bytes w16 d.now.mib ++ flag d.now.quorum ∷ flag d.now.even ∷ [] ++ to_be_bytes w16 (length d.now.pvs) ++ to_be_bytes w16 (length d.now.lvs) ++ replicate 12 0 }
{
    let mut bytes = [0; 20];
    BigEndian::write_u16(&mut bytes[..2], d.mib);
    bytes[2] = u8::from(d.quorum);
    bytes[3] = u8::from(d.even);
    BigEndian::write_u16(&mut bytes[4..6], d.pvs.len() as u16);
    BigEndian::write_u16(&mut bytes[6..8], d.lvs.len() as u16);
    bytes
}

fn magic(big: bool) -> [u8; 4]
    ensures { result ≡ descriptor_magic big }
{
    if big { *b"VGD2" } else { *b"VGD1" }
}

fn member_bytes(row: &PvRow) -> [u8; 8]
    ensures { result ≡ member_bytes row.now }
{
    let mut bytes = [0; 8];
    BigEndian::write_u16(&mut bytes[..2], row.disk);
    BigEndian::write_u16(&mut bytes[2..4], row.pps);
    bytes[4] = u8::from(row.spare);
    bytes
}

fn mode_code(mode: Mode) -> u8
    ensures { result ≡ mode_code mode }
{
    match mode {
        Mode::Off => 0,
        Mode::Active => 1,
        Mode::Passive => 2,
    }
}

fn policy_code(policy: Policy) -> u8
    ensures { result ≡ policy_code policy }
{
    match policy {
        Policy::Parallel => 0,
        Policy::Sequential => 1,
        Policy::ParallelWrite => 2,
        Policy::RoundRobin => 3,
    }
}

fn volume_bytes(row: &LvRow) -> [u8; 32]
    ensures { result ≡ volume_bytes row.now }
{
    let mut bytes = [0; 32];
    BigEndian::write_u16(&mut bytes[..2], row.number);
    bytes[2] = row.copies;
    bytes[3] = mode_code(row.mode);
    bytes[4] = policy_code(row.policy);
    BigEndian::write_u32(&mut bytes[8..12], row.lps);
    bytes[12..28].copy_from_slice(row.name.as_field());
    bytes
}

fn partition_bytes(pp: Pp) -> [u8; 4]
    ensures { result ≡ partition_bytes pp }
{
    let mut bytes = [0; 4];
    BigEndian::write_u16(&mut bytes[..2], pp.disk);
    BigEndian::write_u16(&mut bytes[2..], pp.pp);
    bytes
}

fn put_members(out: &mut Vec<u8>, rows: &[PvRow]) -> Result<(), AllocError>
    ensures { OnOk result (out.new.items ≡ out.old.items ++ flat_map member_bytes rows.now) }
{
    for row in rows {
        out.extend_from_slice(&member_bytes(row))?;
    }
    Ok(())
}

fn put_volumes(out: &mut Vec<u8>, rows: &[LvRow]) -> Result<(), AllocError>
    ensures { OnOk result (out.new.items ≡ out.old.items ++ flat_map volume_bytes rows.now) }
{
    for row in rows {
        out.extend_from_slice(&volume_bytes(row))?;
    }
    Ok(())
}

fn put_map(out: &mut Vec<u8>, map: &[Pp]) -> Result<(), AllocError>
    ensures { OnOk result (out.new.items ≡ out.old.items ++ flat_map partition_bytes map.now) }
{
    for pp in map {
        out.extend_from_slice(&partition_bytes(*pp))?;
    }
    Ok(())
}

fn put_maps(out: &mut Vec<u8>, rows: &[LvRow]) -> Result<(), AllocError>
    ensures { OnOk result (out.new.items ≡ out.old.items ++ flat_map (λ (row : LvRow). flat_map partition_bytes row.map) rows.now) }
{
    for row in rows {
        put_map(out, row.map.as_slice())?;
    }
    Ok(())
}
