//! The lines of the mesh.
ghost use Rattle.std.specs.Prelude.{◌≡◌, ◌++◌, OnOk, flat_map};
ghost use Rattle.geo_model.specs.Report.{mesh_text};
ghost use Rattle.geo_report.specs.MeshTexts.{counts_part, sizes_part, error_part, state_part, provider_line, consumer_line, wither_part, name_part, head_part, geom_lines};

use geo_base::{Counts, NoMemory};
use geo_model::{ConsLine, GeomLine, ProvLine};
use geo_text::Text;

#[tactic(auto, unfolding(crate::specs::MeshTexts::counts_part))]
fn add_counts(text: &mut Text, counts: &Counts) -> Result<(), NoMemory>
    ensures { OnOk result (text.new ≡ text.old ++ counts_part counts.now) }
{
    text.add_labelled(b" r", u64::from(counts.r))?;
    text.add_labelled(b"w", u64::from(counts.w))?;
    text.add_labelled(b"e", u64::from(counts.e))
}

#[tactic(auto, unfolding(crate::specs::MeshTexts::sizes_part))]
fn add_sizes(text: &mut Text, provider: &ProvLine) -> Result<(), NoMemory>
    ensures { OnOk result (text.new ≡ text.old ++ sizes_part provider.now) }
{
    text.add_labelled(b" size ", provider.size)?;
    text.add_labelled(b" sector ", u64::from(provider.sector))
}

fn error_part(provider: &ProvLine) -> &'static [u8]
    ensures { result.now ≡ error_part provider.now }
{
    if provider.errored { b" ENXIO\n" } else { b"\n" }
}

#[tactic(auto, unfolding(crate::specs::MeshTexts::state_part))]
fn add_state(text: &mut Text, provider: &ProvLine) -> Result<(), NoMemory>
    ensures { OnOk result (text.new ≡ text.old ++ state_part provider.now) }
{
    add_counts(text, &provider.counts)?;
    text.add(error_part(provider))
}

#[tactic(auto, unfolding(crate::specs::MeshTexts::provider_line))]
fn add_provider(text: &mut Text, provider: &ProvLine) -> Result<(), NoMemory>
    ensures { OnOk result (text.new ≡ text.old ++ provider_line provider.now) }
{
    text.add(b"  provider ")?;
    text.add(provider.name.bytes())?;
    add_sizes(text, provider)?;
    add_state(text, provider)
}

fn add_providers(text: &mut Text, providers: &[ProvLine]) -> Result<(), NoMemory>
    ensures { OnOk result (text.new ≡ text.old ++ flat_map provider_line providers.now) }
{
    for provider in providers {
        add_provider(text, provider)?;
    }
    Ok(())
}

#[tactic(auto, unfolding(crate::specs::MeshTexts::consumer_line))]
fn add_consumer(text: &mut Text, consumer: &ConsLine) -> Result<(), NoMemory>
    ensures { OnOk result (text.new ≡ text.old ++ consumer_line consumer.now) }
{
    text.add(b"  consumer ")?;
    text.add(consumer.prov.bytes())?;
    add_counts(text, &consumer.counts)?;
    text.add(b"\n")
}

fn add_consumers(text: &mut Text, consumers: &[ConsLine]) -> Result<(), NoMemory>
    ensures { OnOk result (text.new ≡ text.old ++ flat_map consumer_line consumers.now) }
{
    for consumer in consumers {
        add_consumer(text, consumer)?;
    }
    Ok(())
}

fn wither_part(geom: &GeomLine) -> &'static [u8]
    ensures { result.now ≡ wither_part geom.now }
{
    if geom.withering {
        b" withering\n"
    } else {
        b"\n"
    }
}

#[tactic(auto, unfolding(crate::specs::MeshTexts::name_part))]
fn add_name(text: &mut Text, geom: &GeomLine) -> Result<(), NoMemory>
    ensures { OnOk result (text.new ≡ text.old ++ name_part geom.now) }
{
    text.add(b"geom ")?;
    text.add(geom.kind.text())?;
    text.add(b" ")?;
    text.add(geom.name.bytes())
}

#[tactic(auto, unfolding(crate::specs::MeshTexts::head_part))]
fn add_head(text: &mut Text, geom: &GeomLine) -> Result<(), NoMemory>
    ensures { OnOk result (text.new ≡ text.old ++ head_part geom.now) }
{
    add_name(text, geom)?;
    text.add_labelled(b" rank ", u64::from(geom.rank))?;
    text.add(wither_part(geom))
}

#[tactic(auto, unfolding(crate::specs::MeshTexts::geom_lines))]
fn add_geom(text: &mut Text, geom: &GeomLine) -> Result<(), NoMemory>
    ensures { OnOk result (text.new ≡ text.old ++ geom_lines geom.now) }
{
    add_head(text, geom)?;
    add_providers(text, geom.providers.items())?;
    add_consumers(text, geom.consumers.items())
}

fn add_geoms(text: &mut Text, geoms: &[GeomLine]) -> Result<(), NoMemory>
    ensures { OnOk result (text.new ≡ text.old ++ flat_map geom_lines geoms.now) }
{
    for geom in geoms {
        add_geom(text, geom)?;
    }
    Ok(())
}

/// The lines of the mesh, behind the text.
#[tactic(auto, using(crate::proofs::MeshLemmas::mesh_is))]
pub fn add_mesh(text: &mut Text, geoms: &[GeomLine]) -> Result<(), NoMemory>
    ensures { OnOk result (text.new ≡ text.old ++ mesh_text geoms.now) }
{
    add_geoms(text, geoms)
}
