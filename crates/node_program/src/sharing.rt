//! That threads can take values of every type of this crate, and share them: it is shown by being proved.
use crate::{
    Code, Coding, Decoder, DecoderTable, Entries, LiveLinks, Operand, OperandList, OperandTable,
};

fn shared<T: Send + Sync>() {}

fn share_every_type() {
    shared::<Operand>();
    shared::<Decoder>();
    shared::<Entries>();
    shared::<OperandList>();
    shared::<OperandTable>();
    shared::<DecoderTable>();
    shared::<LiveLinks>();
    shared::<Code>();
    shared::<Coding<'_>>();
}
