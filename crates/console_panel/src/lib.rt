// The console's call on a design. A line is the call that it is handed to, and its answer is put into the front of a lent text.
#![tactic(auto)]

ghost use Rattle.text.specs.Text.{Puts};
ghost use Rattle.panels.specs.Answers.{answer_by};
ghost use Rattle.console_panel.specs.Panel.{panel_line, PanelAnswered};

use console_bytes::buffers;
use console_lines::{numbers, words};
use designs::Fault;
use panels::Panel;

// `R OFFSET PRESENT W D N HEX`
#[tactic(auto, unfolding(crate::specs::Panel::panel_line))]
fn put_answer(text: &mut [u8], answer: Result<Panel, Fault>, lent: &[u8]) -> usize
    ensures { Puts (panel_line (answer_by answer) lent.now) 0 text.old result text.new }
{
    match answer {
        Ok(panel) => {
            let (width, depth) = (usize::from(panel.width), usize::from(panel.depth));
            let values = [0, 0, width, depth, panel.filled];
            console_answers::put_bytes(text, 0, &values, lent)
        }
        Err(fault) => {
            let values = [fault.offset, fault.present, 0, 0, 0];
            console_answers::put_bytes(text, fault.refusal.number(), &values, lent)
        }
    }
}

// `panel ROOM HEX`: a design, and the whole lent feed sheet after the call.
pub fn panel(line: &[u8], text: &mut [u8]) -> usize
    ensures { PanelAnswered line.now text.old result text.new }
{
    let room = words::room(line, 1);
    let mut bytes = buffers::spelt();
    let count = numbers::hex(words::word(line, 2), &mut bytes);
    let mut buffer = buffers::bytes();
    let lent = &mut buffer[..room];
    let answer = panels::read(&bytes[..count], lent);
    put_answer(text, answer, lent)
}
