// The registry's bytes, which a host lends (01, The mapper: own port, next creation and 64 places).
// Where a field lies is said in layout, by the layouts of specs/Bytes; everything else asks here.
//
// A `requires` here is one that the mapper's own calls meet: a place below 64. It is no type of its own,
// which would be no plainer: the look-ups and `filled` speak of the index, so each caller would wrap it
// and each of record_of, put and clear unwrap it.
#![tactic(auto)]

pub mod entry;
pub mod find;
pub mod head;
pub mod layout;
pub mod put;
