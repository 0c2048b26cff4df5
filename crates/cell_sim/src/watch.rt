//! The safety rules as they show in the world and not in the book, and how often each was broken.
ghost use Rattle.std.specs.Prelude.{◌≡◌, ◌<◌, ◌&&◌, not, Some, slice_get};
ghost use Rattle.cell_sim.specs.Looks.{now_so, was_so};
ghost use Rattle.cell_sim.specs.Parts.{watch_after};
ghost use Rattle.cell_sim.specs.Simulated.{new_watch, rule_number};

pub(crate) mod rules;

use crate::watch::rules::Situation;
use cell_types::Command;
use std::fmt;

/// A safety rule of the cell, as it is looked at in the world. `Display` writes its name, which is the variant's.
#[derive(Clone, Copy, Debug, PartialEq, Eq)]
pub enum SafetyRule {
    /// An arm faces a press and isn't in, and the press moves or isn't where that arm serves it.
    ArmInPress,
    /// An arm faces the table and isn't in, and the table moves.
    ArmOverTable,
    /// An arm faces the deposit belt and isn't in, and the belt moves.
    ArmOverBelt,
    /// The robot turns, and an arm isn't in.
    TurnWithArmOut,
    /// The feed belt goes to the table, which isn't at rest low and turned to the belt, or has a plate.
    TableNotReady,
    /// An arm lets go of a plate over a station that has one.
    PlateOnPlate,
    /// An arm lets go of a plate over no station.
    PlateDropped,
    /// A belt is sent to its end, which has a plate.
    FullEnd,
    /// A press is sent on in another order than from the middle to the top with a plate, from the top to the bottom,
    /// and from the bottom to the middle empty, or while it isn't at rest.
    PressOrder,
    /// An axis is sent to a pose to which it can't go.
    NoSuchPose,
    /// A plate is laid in, under a light that was turned green, onto a feed belt that has one.
    LaidOntoFullBelt,
    /// A plate is forged that was forged before.
    ForgedTwice,
}

/// All safety rules, in their order.
pub const SAFETY_RULES: [SafetyRule; 12] = [
    SafetyRule::ArmInPress,
    SafetyRule::ArmOverTable,
    SafetyRule::ArmOverBelt,
    SafetyRule::TurnWithArmOut,
    SafetyRule::TableNotReady,
    SafetyRule::PlateOnPlate,
    SafetyRule::PlateDropped,
    SafetyRule::FullEnd,
    SafetyRule::PressOrder,
    SafetyRule::NoSuchPose,
    SafetyRule::LaidOntoFullBelt,
    SafetyRule::ForgedTwice,
];

impl SafetyRule {
    /// The rule's name, as it is printed.
    pub fn name(self) -> &'static str {
        match self {
            SafetyRule::ArmInPress => "ArmInPress",
            SafetyRule::ArmOverTable => "ArmOverTable",
            SafetyRule::ArmOverBelt => "ArmOverBelt",
            SafetyRule::TurnWithArmOut => "TurnWithArmOut",
            SafetyRule::TableNotReady => "TableNotReady",
            SafetyRule::PlateOnPlate => "PlateOnPlate",
            SafetyRule::PlateDropped => "PlateDropped",
            SafetyRule::FullEnd => "FullEnd",
            SafetyRule::PressOrder => "PressOrder",
            SafetyRule::NoSuchPose => "NoSuchPose",
            SafetyRule::LaidOntoFullBelt => "LaidOntoFullBelt",
            SafetyRule::ForgedTwice => "ForgedTwice",
        }
    }
}

impl fmt::Display for SafetyRule {
    fn fmt<W: fmt::Write>(&self, f: &mut fmt::Formatter<W>) -> fmt::Result {
        f.write_str(self.name())
    }
}

/// Where a rule was broken first.
#[derive(Clone, Copy, Debug, PartialEq, Eq)]
pub struct Occasion {
    /// The round, counted from 1.
    pub round: u32,
    /// The command by which it was broken, which may have come in an earlier round: that of the motion that ended, or
    /// of the light under which a plate was laid in. `None` where the operator's hands put a machine at home.
    pub command: Option<Command>,
}

/// A rule's place in the order of rules, from 0.
fn rule_number(rule: SafetyRule) -> usize
    ensures value { result ≡ rule_number rule }
    ensures below { result < 12 }
{
    rule as usize
}

/// How often each rule was broken, where each was broken first, and which situations go on now. One that is off counts
/// nothing.
#[derive(Clone, Copy, Debug)]
pub(crate) struct Watch {
    pub is_on: bool,
    /// How often each rule was broken, in their order. At `u32::MAX` a count stays.
    pub counts: [u32; 12],
    pub firsts: [Option<Occasion>; 12],
    /// Which of the situations that break a rule were so when they were last looked at.
    pub standing: [bool; 7],
}

impl Watch {
    /// A watch by which no rule is broken yet.
    pub(crate) fn new(is_on: bool) -> Watch
        ensures { result ≡ new_watch is_on }
    {
        Watch {
            is_on,
            counts: [0; 12],
            firsts: [None; 12],
            standing: [false; 7],
        }
    }

    /// Counts that a rule was broken.
    pub(crate) fn count(&mut self, rule: SafetyRule, occasion: Occasion)
        ensures { self.new ≡ watch_after rule occasion self.old }
    {
        if !self.is_on {
            return;
        }
        let place = rule_number(rule);
        if self.counts[place] == 0 {
            self.firsts[place] = Some(occasion);
        }
        self.counts[place] = self.counts[place].saturating_add(1);
    }

    /// How often a rule was broken.
    pub(crate) fn count_of(&self, rule: SafetyRule) -> u32
        ensures { slice_get self.now.counts (rule_number rule) ≡ Some result }
    {
        self.counts[rule_number(rule)]
    }

    /// Where a rule was broken first.
    pub(crate) fn first_of(&self, rule: SafetyRule) -> Option<Occasion>
        ensures { slice_get self.now.firsts (rule_number rule) ≡ Some result }
    {
        self.firsts[rule_number(rule)]
    }

    /// Keeps how a situation is now, and says whether it is so and wasn't.
    pub(crate) fn is_new(&mut self, situation: Situation, is_so: bool) -> bool
        ensures new { result ≡ (is_so && not (was_so self.old situation)) }
        ensures watch { self.new ≡ now_so situation is_so self.old }
    {
        let place = situation.place();
        let was_so = self.standing[place];
        self.standing[place] = is_so;
        is_so && !was_so
    }
}
