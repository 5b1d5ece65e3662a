//! One exchange of all process data.

ghost use Rattle.std.specs.Prelude.{◌≡◌, ◌∷◌, ◌++◌, ◌+◌, ◌<◌, ◌≤◌, [], length, drop, IsTrue};
ghost use Rattle.cyclic.specs.Turn.{turn_order, TakesTurn};

use crate::exchange::exchange;
use crate::fault::CycleFault;
use ecat_frame::{Command, Frame};
use sii_image::{IMAGE_BYTES, Plan, ProcessImage};
use site_core::Site;

/// Copies the outputs to the front of the content.
fn lay(content: &mut [u8], outputs: &[u8])
    requires { length outputs.now ≤ length content.old }
    ensures { content.new ≡ outputs.now ++ drop (length outputs.now) content.old }
{
    content[..outputs.len()].copy_from_slice(outputs);
}

/// The frame of one exchange: the outputs, and a zero byte for each byte of inputs.
fn turn_frame(image: &ProcessImage, outputs: &[u8]) -> Frame
    requires { length outputs.now ≡ image.now.outputs }
    ensures { result ≡ turn_order image.now outputs.now ∷ [] }
{
    let count = image.outputs() + image.inputs();
    let mut content = [0u8; IMAGE_BYTES];
    lay(&mut content, outputs);
    let mut frame = Frame::new();
    match frame.push(Command::Lrw, 0, 0, &content[..count]) {
        Ok(()) => {}
        Err(_) => unreachable!(),
    }
    frame
}

/// Exchanges all process data once: sends the outputs to all slaves, fills `inputs` with what comes back, and returns the working counter.
///
/// It sends one LRW (ETG.1000.4) at logical address 0, over the outputs and a zero byte for each byte of inputs. For a process image
/// without bytes it sends nothing, and returns 0. The site must own the process halves, and `outputs` and `inputs` must have the sizes
/// of the plan's process image.
///
/// # Errors
///
/// `Stopped` if the site has stopped, or stops in this call; `Lost` if the frame is lost; `WrongCounter` if the working counter isn't
/// that of all slaves. `inputs` is unchanged then.
pub fn turn<S: Site>(
    site: &mut S,
    plan: &Plan,
    outputs: &[u8],
    inputs: &mut [u8],
) -> Result<u16, CycleFault>
    requires process { IsTrue (S.line site.old).has_process }
    requires outputs { length outputs.now ≡ plan.now.image.outputs }
    requires inputs { length inputs.old ≡ plan.now.image.inputs }
    ensures nothing { plan.now.image.outputs + plan.now.image.inputs ≡ 0 → (result ≡ Ok 0) × (S.seen site.new ≡ S.seen site.old) }
    ensures turn { 0 < plan.now.image.outputs + plan.now.image.inputs
        → TakesTurn plan.now.image outputs.now inputs.old (S.seen site.old) result inputs.new (S.seen site.new) }
    ensures line { S.line site.new ≡ S.line site.old }
{
    if plan.image.outputs() + plan.image.inputs() == 0 {
        return Ok(0);
    }
    let expected = plan.image.expected_counter();
    let mut frame = turn_frame(&plan.image, outputs);
    exchange(site, &mut frame, expected)?;
    let back = frame.datagram(0).content;
    inputs.copy_from_slice(&back[outputs.len()..]);
    Ok(expected)
}
