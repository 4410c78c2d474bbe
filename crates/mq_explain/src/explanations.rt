//! The text that explains each statement to those who make clients and brokers.
ghost use Rattle.std.specs.Prelude.{◌≡◌, ◌==◌, not};
ghost use Rattle.std.specs.List.{take_while};
ghost use Rattle.mq_rules.specs.declared.rule.Rule.{Rule};
ghost use Rattle.mq_rules.specs.Rules.{code_of};
ghost use Rattle.mq_explain.specs.Explaining.{explanation_of};

mod connections;
mod deliveries;
mod exchanges;
mod further;
mod packets;
mod releases;
mod sessions;

use mq_rules::Rule;

/// The text that explains a statement, in lines of at most 80 columns.
#[tactic(auto, unfolding(crate::specs::Explaining::explanation_of))]
pub fn explanation(rule: Rule) -> &'static str
    ensures { result.now ≡ explanation_of rule }
{
    match rule {
        Rule::W01 => packets::W01,
        Rule::W02 => packets::W02,
        Rule::W03 => packets::W03,
        Rule::W04 => packets::W04,
        Rule::W05 => packets::W05,
        Rule::W06 => packets::W06,
        Rule::W07 => packets::W07,
        Rule::W08 => packets::W08,
        Rule::W09 => packets::W09,
        Rule::W10 => packets::W10,
        Rule::W11 => packets::W11,
        Rule::W12 => packets::W12,
        Rule::W13 => packets::W13,
        Rule::W14 => packets::W14,
        Rule::W15 => packets::W15,
        Rule::W16 => packets::W16,
        Rule::W17 => packets::W17,
        Rule::W18 => packets::W18,
        Rule::W19 => packets::W19,
        Rule::W20 => packets::W20,
        Rule::W21 => packets::W21,
        Rule::C01 => connections::C01,
        Rule::C02 => connections::C02,
        Rule::C03 => connections::C03,
        Rule::C04 => connections::C04,
        Rule::C05 => connections::C05,
        Rule::C06 => connections::C06,
        Rule::C07 => connections::C07,
        Rule::C08 => connections::C08,
        Rule::C09 => connections::C09,
        Rule::C10 => connections::C10,
        Rule::C11 => connections::C11,
        Rule::C12 => connections::C12,
        Rule::C13 => connections::C13,
        Rule::C14 => connections::C14,
        Rule::C15 => connections::C15,
        Rule::C16 => connections::C16,
        Rule::C17 => connections::C17,
        Rule::C18 => connections::C18,
        Rule::C19 => connections::C19,
        Rule::C20 => connections::C20,
        Rule::C21 => connections::C21,
        Rule::C22 => connections::C22,
        Rule::C23 => connections::C23,
        Rule::S01 => sessions::S01,
        Rule::S02 => sessions::S02,
        Rule::S03 => sessions::S03,
        Rule::S04 => sessions::S04,
        Rule::S05 => sessions::S05,
        Rule::S06 => sessions::S06,
        Rule::S07 => sessions::S07,
        Rule::E1A => exchanges::E1A,
        Rule::E1R => exchanges::E1R,
        Rule::E1O => exchanges::E1O,
        Rule::E2A => exchanges::E2A,
        Rule::E2R => exchanges::E2R,
        Rule::E2O => exchanges::E2O,
        Rule::E3A => exchanges::E3A,
        Rule::E3R => exchanges::E3R,
        Rule::E3O => exchanges::E3O,
        Rule::E4A => exchanges::E4A,
        Rule::E4R => exchanges::E4R,
        Rule::E5A => exchanges::E5A,
        Rule::E5R => exchanges::E5R,
        Rule::E6A => exchanges::E6A,
        Rule::E6R => exchanges::E6R,
        Rule::E7R => exchanges::E7R,
        Rule::L1 => releases::L1,
        Rule::L2 => releases::L2,
        Rule::L3 => releases::L3,
        Rule::B01 => deliveries::B01,
        Rule::B02 => deliveries::B02,
        Rule::B03 => deliveries::B03,
        Rule::B04 => deliveries::B04,
        Rule::B05 => further::B05,
        Rule::B06 => further::B06,
        Rule::B07 => further::B07,
        Rule::B08 => further::B08,
        Rule::B09 => further::B09,
        Rule::P01 => further::P01,
        Rule::P02 => further::P02,
        Rule::R01 => further::R01,
        Rule::R02 => further::R02,
        Rule::F01 => further::F01,
        Rule::F02 => further::F02,
        Rule::F03 => further::F03,
        Rule::F04 => further::F04,
        Rule::F05 => further::F05,
        Rule::F06 => further::F06,
        Rule::V03 => further::V03,
        Rule::V04 => further::V04,
        Rule::V06 => further::V06,
        Rule::C24 => further::C24,
        Rule::D01 => further::D01,
        Rule::D02 => further::D02,
        Rule::D03 => further::D03,
        Rule::D05 => further::D05,
        Rule::A01 => further::A01,
        Rule::A02 => further::A02,
        Rule::A03 => further::A03,
        Rule::K01 => further::K01,
        Rule::K02 => further::K02,
    }
}

/// The first word of each explanation is the code of its statement. Since no two statements have
/// one code, no two have one explanation.
pub fn each_explanation_begins_with_its_code()
    ensures { (rule : Rule) → take_while (λ byte. not (byte == 32)) (explanation_of rule) ≡ code_of rule }
{}
