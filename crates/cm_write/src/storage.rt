//! Storages as values.

use crate::puts::{
    WritableRow, plain_use, put_from, put_subdir, put_text, put_to, storage_id_word,
};
use cm_decl::{Storage, StorageOffer, StorageUse};
use cm_names::Memory;
use serde_json::{Map, Value};
use std::alloc::Global;

impl WritableRow for Storage {
    ghost use Rattle.cm_write.specs.Writing.{storage_data};

    ghost writes = { storage_data };

    /// An item of `capabilities`.
    fn write(&self, alloc: Global) -> Result<Value, Memory> {
        let mut members = Map::new(alloc);
        put_text(alloc, &mut members, "storage", self.name.as_str())?;
        put_from(alloc, &mut members, &self.from)?;
        put_text(alloc, &mut members, "backing_dir", self.backing.as_str())?;
        put_text(
            alloc,
            &mut members,
            "storage_id",
            storage_id_word(self.by_moniker),
        )?;
        put_subdir(alloc, &mut members, &self.subdir)?;
        Ok(Value::from(members))
    }
}

impl WritableRow for StorageUse {
    ghost use Rattle.cm_write.specs.Writing.{storage_use_data};

    ghost writes = { storage_use_data };

    /// An item of `use`; storages are used from the parent alone.
    fn write(&self, alloc: Global) -> Result<Value, Memory> {
        plain_use(alloc, "storage", &self.name, "parent", &self.path)
    }
}

impl WritableRow for StorageOffer {
    ghost use Rattle.cm_write.specs.Writing.{storage_offer_data};

    ghost writes = { storage_offer_data };

    /// An item of `offer`.
    fn write(&self, alloc: Global) -> Result<Value, Memory> {
        let mut members = Map::new(alloc);
        put_text(alloc, &mut members, "storage", self.source_name.as_str())?;
        put_from(alloc, &mut members, &self.from)?;
        put_to(alloc, &mut members, &self.to)?;
        put_text(alloc, &mut members, "as", self.target_name.as_str())?;
        Ok(Value::from(members))
    }
}
