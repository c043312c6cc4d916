//! That threads can take values of every type of this crate, and share them: it is shown by being proved.
use crate::{
    Demand, FieldChoice, Link, LinkList, LinkTable, Name, NameFault, NameList, Net, NodeList,
    Paths, Pattern, PatternList, Side,
};

fn shared<T: Send + Sync>() {}

fn share_every_type() {
    shared::<Name>();
    shared::<NameFault>();
    shared::<Link>();
    shared::<Pattern>();
    shared::<Demand>();
    shared::<FieldChoice>();
    shared::<LinkList>();
    shared::<Paths>();
    shared::<Side>();
    shared::<NameList>();
    shared::<LinkTable>();
    shared::<NodeList>();
    shared::<PatternList>();
    shared::<Net>();
}
