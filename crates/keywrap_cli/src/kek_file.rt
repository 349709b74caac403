//! Reads KEKs from files.

ghost use Rattle.std.specs.Prelude.{◌≡◌, Some, None};
ghost use Rattle.keywrap_cli.specs.JobReading.{OpensKek, OpensKeks, kek_fault_of, known_keks, one_kek, two_keks};

use crate::files::{Notation, read_file};
use crate::outcome::JobFault;
use key_files::FileFault;
use std::alloc::Global;
use std::io::Read;

/// The program's block cipher, named only here.
pub use aes_leaves::OwnedAes as Aes;

/// The KEK files of an operation: their names, or open files.
#[derive(Drop)]
pub struct Keks<K> {
    pub notation: Notation,
    pub kek: K,
    /// The new KEK of a rewrap.
    pub new_kek: Option<K>,
}

/// One of the KEKs of an operation.
#[derive(Clone, Copy)]
pub enum KekRole {
    Kek,
    NewKek,
}

/// AES under each KEK of an operation.
#[derive(Drop)]
pub struct Ciphers {
    pub kek: Aes,
    pub new_kek: Option<Aes>,
    /// Whether there is a new KEK that is the same key as the KEK.
    pub same: bool,
}

impl<K: Read> Keks<K> {
    /// Reads the KEK files. The new KEK is read only after the KEK is accepted.
    pub fn read(&mut self, alloc: Global) -> Result<Ciphers, JobFault>
        ensures opens { OpensKeks (known_keks K.remaining self.old)
            (known_keks K.remaining self.new) result }
        ensures notation { self.new.notation ≡ self.old.notation }
    {
        match &mut self.new_kek {
            None => read_kek(alloc, self.notation, &mut self.kek),
            Some(new_kek) => read_keks(alloc, self.notation, &mut self.kek, new_kek),
        }
    }
}

/// Reads the only KEK file of an operation.
pub fn read_kek<K: Read>(
    alloc: Global,
    notation: Notation,
    file: &mut K,
) -> Result<Ciphers, JobFault>
    ensures { OpensKeks (one_kek notation (K.remaining file.old))
        (one_kek notation (K.remaining file.new)) result }
{
    match read_into(alloc, KekRole::Kek, notation, file, &mut Vec::new(alloc)) {
        Ok(kek) => Ok(Ciphers {
            kek,
            new_kek: None,
            same: false,
        }),
        Err(fault) => Err(fault),
    }
}

/// Reads both KEK files of a rewrap, as [`Keks::read`] does.
pub fn read_keks<K: Read, N: Read>(
    alloc: Global,
    notation: Notation,
    file: &mut K,
    new_file: &mut N,
) -> Result<Ciphers, JobFault>
    ensures { OpensKeks (two_keks notation (K.remaining file.old) (N.remaining new_file.old))
        (two_keks notation (K.remaining file.new) (N.remaining new_file.new)) result }
{
    let (mut old, mut new) = (Vec::new(alloc), Vec::new(alloc));
    let kek = match read_into(alloc, KekRole::Kek, notation, file, &mut old) {
        Ok(kek) => kek,
        Err(fault) => return Err(fault),
    };
    match read_into(alloc, KekRole::NewKek, notation, new_file, &mut new) {
        Ok(new_kek) => Ok(Ciphers {
            kek,
            new_kek: Some(new_kek),
            same: old == new,
        }),
        Err(fault) => Err(fault),
    }
}

// Reads one of the KEKs, and replaces `kek` with its bytes.
fn read_into<K: Read>(
    alloc: Global,
    role: KekRole,
    notation: Notation,
    file: &mut K,
    kek: &mut Vec<u8>,
) -> Result<Aes, JobFault>
    ensures { OpensKek role notation (K.remaining file.old) (K.remaining file.new)
        kek.new.items result }
{
    match read_file(alloc, notation, file) {
        Ok(bytes) => *kek = bytes,
        Err(fault) => return Err(kek_fault(role, Some(fault))),
    }
    match Aes::new(kek) {
        Ok(aes) => Ok(aes),
        Err(_) => Err(kek_fault(role, None)),
    }
}

// Returns the job's fault: `why` is the fault of the KEK file, or `None` for an illegal KEK length.
fn kek_fault(role: KekRole, why: Option<FileFault>) -> JobFault
    ensures { result ≡ kek_fault_of role why }
{
    match (role, why) {
        (_, Some(FileFault::Memory)) => JobFault::Memory,
        (KekRole::Kek, Some(fault)) => JobFault::KekFile(fault),
        (KekRole::Kek, None) => JobFault::KekLength,
        (KekRole::NewKek, Some(fault)) => JobFault::NewKekFile(fault),
        (KekRole::NewKek, None) => JobFault::NewKekLength,
    }
}
