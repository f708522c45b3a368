ghost use Rattle.std.specs.Prelude.{◌≡◌, OnOk, OnErr};
ghost use Rattle.std.specs.List.{position};
ghost use Rattle.std.specs.Option.{option_map};
ghost use Rattle.npd_host.specs.Named.{bytes_of, is_named, Puts};

use crate::memory::named::NamedBytes;
use db_model::NoMemory;
use std::alloc::Global;

/// The bytes of the file of a name.
pub fn find<'a>(files: &'a [NamedBytes], name: &str) -> Option<&'a [u8]>
    ensures { option_map (λ bytes. bytes.now) result ≡ bytes_of files.now name.now }
{
    let file = files.iter().find(|file| file.name() == name)?;
    Some(file.bytes())
}

/// Adds a file, in the place of an earlier one of that name.
pub fn put(
    alloc: Global,
    files: &mut Vec<NamedBytes>,
    name: &str,
    bytes: &[u8],
) -> Result<(), NoMemory>
    ensures put { OnOk result
        (Puts (bytes_of files.old.items) (bytes_of files.new.items) name.now bytes.now) }
    ensures left { OnErr result (files.new.items ≡ files.old.items) }
{
    let file = NamedBytes::copy_of(alloc, name, bytes)?;
    match place_of(files.as_slice(), name) {
        Some(place) => files[place] = file,
        None => files.push(file)?,
    }
    Ok(())
}

fn place_of(files: &[NamedBytes], name: &str) -> Option<usize>
    ensures { result ≡ position (is_named name.now) files.now }
{
    files.iter().position(|file| file.name() == name)
}
