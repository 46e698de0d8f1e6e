//! Reads an order byte by byte, and makes the parts of the order's form.
use super::key_checks::check_keys;
use super::order_head::{HeadReader, HeadStep};
use super::part_writer::PartWriter;
use crate::fault::FormFault;
use crate::stream::reader::{MessageReader, Output};
use crate::text_bytes::is_text_byte;
use kd_state::SheetDay;

/// A reader of an order, which makes the parts of the order's form.
#[derive(Drop)]
pub(crate) struct OrderReader {
    /// How many bytes of the order were read.
    read: usize,
    stage: OrderStage,
    head: HeadReader,
    writer: PartWriter,
}

/// The section of an order that the next byte belongs to.
#[derive(Clone, Copy)]
pub(crate) enum OrderStage {
    /// The head: the lines of keys and the line TEXT.
    Head,
    /// The text to send.
    Text,
}

impl MessageReader for OrderReader {
    ghost use Rattle.kd_form.specs.SendStream.{order_message};
    ghost use Rattle.kd_form.specs.OrderSteps.{HoldsOrder};

    ghost message = { λ day. order_message day };

    ghost holds = { λ day reader order sent. HoldsOrder day reader order sent };

    fn start(_day: &SheetDay) -> Self {
        OrderReader {
            read: 0,
            stage: OrderStage::Head,
            head: HeadReader::new(),
            writer: PartWriter::new(),
        }
    }

    fn feed(&mut self, day: &SheetDay, byte: u8, output: &mut Output) -> Result<(), FormFault> {
        self.read += 1;
        match self.stage {
            OrderStage::Head => match self.head.take(day, byte) {
                HeadStep::Open => Ok(()),
                HeadStep::Bad => Err(FormFault::BadByte(self.read)),
                HeadStep::Text => {
                    self.stage = OrderStage::Text;
                    check_keys(day, self.head.keys())
                }
            },
            OrderStage::Text => {
                if !is_text_byte(byte) {
                    return Err(FormFault::BadByte(self.read));
                }
                self.writer.take(day, self.head.keys(), byte, output);
                Ok(())
            }
        }
    }

    fn end(&mut self, day: &SheetDay, output: &mut Output) -> Result<(), FormFault> {
        match self.stage {
            OrderStage::Head => Err(FormFault::BadByte(self.read + 1)),
            OrderStage::Text => self.writer.end(day, self.head.keys(), output),
        }
    }
}
