//! Records of entries, and the journal of one plate's way through the cell.
use cell_types::{Entry, PlateId, read_fields};
use std::alloc::{AllocError, Global};

/// The records of the journal of one plate: it is admitted, forged in the first press and delivered.
pub const ONE_PLATE: [&str; 62] = [
    "lamp,feed,green,",
    "admitted,1,,",
    "started,feed_belt,to_end,",
    "conveyed,feed_belt,1,feed_end",
    "claimed,feed,z1,",
    "started,feed_belt,to_table,",
    "conveyed,feed_belt,1,table",
    "yielded,feed,z1,",
    "claimed,table,z1,",
    "claimed,table,z2,",
    "started,table_lift,high,",
    "arrived,table_lift,high,",
    "started,table_turn,robot,",
    "arrived,table_turn,robot,",
    "yielded,table,z1,",
    "yielded,table,z2,",
    "claimed,robot,z2,",
    "started,arm_one,out,",
    "arrived,arm_one,out,",
    "gripped,arm1,1,table",
    "started,arm_one,in,",
    "arrived,arm_one,in,",
    "yielded,robot,z2,",
    "claimed,robot,z3,",
    "started,robot_turn,p1_load,",
    "arrived,robot_turn,p1_load,",
    "started,arm_one,out,",
    "arrived,arm_one,out,",
    "dropped,arm1,1,press1",
    "started,arm_one,in,",
    "arrived,arm_one,in,",
    "yielded,robot,z3,",
    "claimed,press1,z3,",
    "started,press_one,top,",
    "forged,press1,1,",
    "started,press_one,bottom,",
    "arrived,press_one,bottom,",
    "yielded,press1,z3,",
    "claimed,robot,z3,",
    "started,robot_turn,p1_unload,",
    "arrived,robot_turn,p1_unload,",
    "started,arm_two,out,",
    "arrived,arm_two,out,",
    "gripped,arm2,1,press1",
    "started,arm_two,in,",
    "arrived,arm_two,in,",
    "yielded,robot,z3,",
    "claimed,robot,z5,",
    "started,robot_turn,deposit2,",
    "arrived,robot_turn,deposit2,",
    "started,arm_two,out,",
    "arrived,arm_two,out,",
    "dropped,arm2,1,dep_in",
    "started,arm_two,in,",
    "arrived,arm_two,in,",
    "yielded,robot,z5,",
    "claimed,deposit,z5,",
    "started,deposit_belt,to_end,",
    "conveyed,deposit_belt,1,dep_end",
    "yielded,deposit,z5,",
    "lamp,deposit,green,",
    "delivered,1,,",
];

/// The records of the journal of a plate that is cleared from the table and laid back on the feed belt.
pub const LAID_BACK: [&str; 13] = [
    "lamp,feed,green,",
    "admitted,1,,",
    "started,feed_belt,to_end,",
    "conveyed,feed_belt,1,feed_end",
    "claimed,feed,z1,",
    "started,feed_belt,to_table,",
    "conveyed,feed_belt,1,table",
    "yielded,feed,z1,",
    "declared,table,operator_stop,",
    "quarantined,1,table,",
    "expected,1,,",
    "lamp,feed,green,",
    "reinstated,1,,",
];

/// The text of a journal of these records, in the profile of a number.
pub fn text_of(alloc: Global, profile: u8, records: &[&str]) -> Result<Vec<u8>, AllocError> {
    let first = format!(in alloc; "profile,{profile},,\n")?;
    let mut text = Vec::new(alloc);
    text.extend_from_slice(first.as_str().as_bytes())?;
    for record in records {
        text.extend_from_slice(record.as_bytes())?;
        text.push(b'\n')?;
    }
    Ok(text)
}

/// The text of the journal of one plate, in the profile of a number.
pub fn one_plate_text(alloc: Global, profile: u8) -> Result<Vec<u8>, AllocError> {
    text_of(alloc, profile, &ONE_PLATE)
}

/// The plate of a number from 1 to 100,000.
pub fn plate(number: u32) -> Result<PlateId, &'static str> {
    PlateId::new(number).ok_or("no plate has this number")
}

/// The entry of a record, whose fields are parted by commas and are not quoted. A field that is left out is blank.
pub fn entry_of(record: &str) -> Option<Entry> {
    let mut fields = record.split(',');
    let kind = fields.next().unwrap_or("").as_bytes();
    let first = fields.next().unwrap_or("").as_bytes();
    let second = fields.next().unwrap_or("").as_bytes();
    let third = fields.next().unwrap_or("").as_bytes();
    read_fields(&[kind, first, second, third])
}
