//! The layout of a module: sizes of types, addresses of globals, offsets inside types, valid accesses.
//!
//! Definitions: shapes of types (`specs/Shapes.antt`), offsets (`Offsets.antt`), the types that lines write
//! (`WrittenTypes.antt`), addresses and valid accesses (`Memory.antt`), limits (`Limits.antt`); how shapes are kept in numbers
//! of 64 bits (`KeptShapes.antt`, `NamedTypes.antt`). The numbers of the address map are public (`address_map.rt`). Contracts see a `Layout` as the named types of its module and the places
//! of its globals. The checker and memory stand on it.
#![tactic(auto)]

mod address_map;
mod kept_places;
mod limits;
mod memory;
mod named_types;
mod offsets;
mod placing;
mod shapes;
mod spans;
mod type_table;
mod written_types;

pub use address_map::{
    AREA_SIZE, FRAME_LIMIT, GLOBALS_START, HEAP_START, STACK_SIZE, STACKS_START, THREAD_LIMIT,
};
pub use kept_places::GlobalPlaces;
pub use limits::{LayoutError, LimitKind};
pub use memory::Layout;
pub use placing::layout;
pub use written_types::types_known;
