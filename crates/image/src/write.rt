//! Writing an image as bytes.

ghost use Rattle.std.specs.Prelude.{◌≡◌, ◌++◌, IfOk, IfErr, OnOk};
ghost use Rattle.machine_meaning.specs.ImageSpelling.{list, item, channel, front, head, spelling};
ghost use Rattle.image.specs.Items.{items_of, channels_of};
ghost use Rattle.image.specs.Views.{image_of};
ghost use Rattle.image.specs.declared.fault.ImageFault.TheVariants.{Memory};

use crate::fault::ImageFault;
use crate::item::PartitionItem;
use crate::value::Image;
use crate::writing::costs::put_own_fields;
use crate::writing::numbers::number_of_module_action;
use crate::writing::rows::put_list;
use apex_types::MAGIC;
use std::alloc::{AllocError, Global};
use window_table::ChannelRow;

#[tactic(auto, unfolding(machine_meaning::specs::ImageSpelling::front))]
fn put_front(out: &mut Vec<u8>, image: &Image) -> Result<(), AllocError>
    ensures { OnOk result (out.new.items ≡ out.old.items ++ front (image_of image.now)) }
{
    out.extend_from_slice(MAGIC.as_slice())?;
    out.extend_from_slice(&image.version.number().to_le_bytes())?;
    out.extend_from_slice(&image.schedule.frame.to_le_bytes())?;
    out.push(number_of_module_action(image.fault))?;
    Ok(())
}

#[tactic(auto, unfolding(machine_meaning::specs::ImageSpelling::head))]
fn put_head(out: &mut Vec<u8>, image: &Image) -> Result<(), AllocError>
    ensures { OnOk result (out.new.items ≡ out.old.items ++ head (image_of image.now)) }
{
    put_front(out, image)?;
    put_own_fields(out, image.version)
}

#[tactic(auto, using(crate::proofs::Lists::items_spelled))]
fn put_items(out: &mut Vec<u8>, items: &[PartitionItem]) -> Result<(), AllocError>
    ensures { OnOk result (out.new.items ≡ out.old.items ++ list item (items_of items.now)) }
{
    put_list(out, items)
}

#[tactic(auto, using(crate::proofs::Lists::channels_spelled))]
fn put_channels(out: &mut Vec<u8>, rows: &[ChannelRow]) -> Result<(), AllocError>
    ensures { OnOk result (out.new.items ≡ out.old.items ++ list channel (channels_of rows.now)) }
{
    put_list(out, rows)
}

#[tactic(auto, unfolding(machine_meaning::specs::ImageSpelling::spelling))]
fn put_image(out: &mut Vec<u8>, image: &Image) -> Result<(), AllocError>
    ensures { OnOk result (out.new.items ≡ out.old.items ++ spelling (image_of image.now)) }
{
    put_head(out, image)?;
    put_items(out, &image.partitions)?;
    put_list(out, &image.schedule.windows)?;
    put_channels(out, &image.channels)
}

/// The one spelling of the image. Fails only if memory runs out.
pub fn write_image(alloc: Global, image: &Image) -> Result<Vec<u8>, ImageFault>
    ensures spelled { IfOk result (λ bytes. bytes.items ≡ spelling (image_of image.now)) }
    ensures refused { IfErr result (λ fault. fault ≡ Memory) }
{
    let mut out = Vec::new(alloc);
    put_image(&mut out, image)?;
    Ok(out)
}
