//! Sixteen racks with files for an office.
ghost use Rattle.std.specs.Prelude.{◌≡◌, IfSome, vec_len};

use disk_model::FileDisk;
use journaled_shard::Rack;
use test_signer::KeyedRing;

pub(crate) type Racks<D> = Vec<Rack<D, KeyedRing>>;

// Racks with files in the folder, whose names are this one and a number.
fn racks_in(rt: &HostRuntime, folder: &str, name: &str) -> Option<Racks<FileDisk>>
    ensures { IfSome result (λ racks. vec_len racks ≡ 16) }
{
    let mut racks = Vec::new(rt.alloc());
    for number in 0u32..16 {
        racks.push(rack_in(rt, folder, name, number)?).ok()?;
    }
    Some(racks)
}

fn rack_in(
    rt: &HostRuntime,
    folder: &str,
    name: &str,
    number: u32,
) -> Option<Rack<FileDisk, KeyedRing>> {
    let path = format!(in rt.alloc(); "{folder}/{name}{number}").ok()?;
    let disk = FileDisk::open(rt, folder, path.as_str()).ok()?;
    let ring = KeyedRing::derived();
    Some(Rack { disk, ring })
}

/// Two platforms' racks with files in the folder.
pub(crate) fn file_racks(
    rt: &HostRuntime,
    folder: &str,
) -> Option<(Racks<FileDisk>, Racks<FileDisk>)>
    ensures { IfSome result (λ r. (vec_len r.0 ≡ 16) × (vec_len r.1 ≡ 16)) }
{
    let alph = racks_in(rt, folder, "alph")?;
    match racks_in(rt, folder, "beta") {
        Some(beta) => Some((alph, beta)),
        None => {
            drop(alph);
            None
        }
    }
}
