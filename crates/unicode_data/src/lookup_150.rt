// The class and width of a scalar by Unicode 15.0. Written by tools/unicode-lookup.
ghost use Rattle.std.specs.Prelude.{◌≡◌};
ghost use Rattle.unicode_data.specs.Table.{kind_in};
ghost use Rattle.unicode_data.specs.Table150.{table150, group};

use super::rows::find_row;
use super::table_150;

// The first scalar of each part but the first.
const FIRST_1: u32 = table_150::PART_1[0];

const FIRST_2: u32 = table_150::PART_2[0];

const FIRST_3: u32 = table_150::PART_3[0];

const FIRST_4: u32 = table_150::PART_4[0];

const FIRST_5: u32 = table_150::PART_5[0];

const FIRST_6: u32 = table_150::PART_6[0];

const FIRST_7: u32 = table_150::PART_7[0];

const FIRST_8: u32 = table_150::PART_8[0];

const FIRST_9: u32 = table_150::PART_9[0];

const FIRST_10: u32 = table_150::PART_10[0];

const FIRST_11: u32 = table_150::PART_11[0];

const FIRST_12: u32 = table_150::PART_12[0];

const FIRST_13: u32 = table_150::PART_13[0];

const FIRST_14: u32 = table_150::PART_14[0];

const FIRST_15: u32 = table_150::PART_15[0];

const FIRST_16: u32 = table_150::PART_16[0];

const FIRST_17: u32 = table_150::PART_17[0];

const FIRST_18: u32 = table_150::PART_18[0];

const FIRST_19: u32 = table_150::PART_19[0];

const FIRST_20: u32 = table_150::PART_20[0];

const FIRST_21: u32 = table_150::PART_21[0];

const FIRST_22: u32 = table_150::PART_22[0];

const FIRST_23: u32 = table_150::PART_23[0];

const FIRST_24: u32 = table_150::PART_24[0];

const FIRST_25: u32 = table_150::PART_25[0];

const FIRST_26: u32 = table_150::PART_26[0];

const FIRST_27: u32 = table_150::PART_27[0];

const FIRST_28: u32 = table_150::PART_28[0];

const FIRST_29: u32 = table_150::PART_29[0];

const FIRST_30: u32 = table_150::PART_30[0];

const FIRST_31: u32 = table_150::PART_31[0];

const FIRST_32: u32 = table_150::PART_32[0];

const FIRST_33: u32 = table_150::PART_33[0];

const FIRST_34: u32 = table_150::PART_34[0];

const FIRST_35: u32 = table_150::PART_35[0];

const FIRST_36: u32 = table_150::PART_36[0];

const FIRST_37: u32 = table_150::PART_37[0];

const FIRST_38: u32 = table_150::PART_38[0];

const FIRST_39: u32 = table_150::PART_39[0];

const FIRST_40: u32 = table_150::PART_40[0];

const FIRST_41: u32 = table_150::PART_41[0];

const FIRST_42: u32 = table_150::PART_42[0];

const FIRST_43: u32 = table_150::PART_43[0];

const FIRST_44: u32 = table_150::PART_44[0];

const FIRST_45: u32 = table_150::PART_45[0];

const FIRST_46: u32 = table_150::PART_46[0];

const FIRST_47: u32 = table_150::PART_47[0];

const FIRST_48: u32 = table_150::PART_48[0];

const FIRST_49: u32 = table_150::PART_49[0];

const FIRST_50: u32 = table_150::PART_50[0];

const FIRST_51: u32 = table_150::PART_51[0];

const FIRST_52: u32 = table_150::PART_52[0];

const FIRST_53: u32 = table_150::PART_53[0];

const FIRST_54: u32 = table_150::PART_54[0];

const FIRST_55: u32 = table_150::PART_55[0];

const FIRST_56: u32 = table_150::PART_56[0];

const FIRST_57: u32 = table_150::PART_57[0];

const FIRST_58: u32 = table_150::PART_58[0];

const FIRST_59: u32 = table_150::PART_59[0];

const FIRST_60: u32 = table_150::PART_60[0];

const FIRST_61: u32 = table_150::PART_61[0];

// Groups of 8 parts. A part is copied where it is looked in: constants that are borrowed are all built where a function begins.
fn group_0(x: u32) -> u32
    ensures { result ≡ kind_in (group 0) x }
{
    if x < FIRST_1 {
        let rows = table_150::PART_0;
        return find_row(&rows, x);
    }
    if x < FIRST_2 {
        let rows = table_150::PART_1;
        return find_row(&rows, x);
    }
    if x < FIRST_3 {
        let rows = table_150::PART_2;
        return find_row(&rows, x);
    }
    if x < FIRST_4 {
        let rows = table_150::PART_3;
        return find_row(&rows, x);
    }
    if x < FIRST_5 {
        let rows = table_150::PART_4;
        return find_row(&rows, x);
    }
    if x < FIRST_6 {
        let rows = table_150::PART_5;
        return find_row(&rows, x);
    }
    if x < FIRST_7 {
        let rows = table_150::PART_6;
        return find_row(&rows, x);
    }
    let rows = table_150::PART_7;
    find_row(&rows, x)
}

fn group_1(x: u32) -> u32
    ensures { result ≡ kind_in (group 1) x }
{
    if x < FIRST_9 {
        let rows = table_150::PART_8;
        return find_row(&rows, x);
    }
    if x < FIRST_10 {
        let rows = table_150::PART_9;
        return find_row(&rows, x);
    }
    if x < FIRST_11 {
        let rows = table_150::PART_10;
        return find_row(&rows, x);
    }
    if x < FIRST_12 {
        let rows = table_150::PART_11;
        return find_row(&rows, x);
    }
    if x < FIRST_13 {
        let rows = table_150::PART_12;
        return find_row(&rows, x);
    }
    if x < FIRST_14 {
        let rows = table_150::PART_13;
        return find_row(&rows, x);
    }
    if x < FIRST_15 {
        let rows = table_150::PART_14;
        return find_row(&rows, x);
    }
    let rows = table_150::PART_15;
    find_row(&rows, x)
}

fn group_2(x: u32) -> u32
    ensures { result ≡ kind_in (group 2) x }
{
    if x < FIRST_17 {
        let rows = table_150::PART_16;
        return find_row(&rows, x);
    }
    if x < FIRST_18 {
        let rows = table_150::PART_17;
        return find_row(&rows, x);
    }
    if x < FIRST_19 {
        let rows = table_150::PART_18;
        return find_row(&rows, x);
    }
    if x < FIRST_20 {
        let rows = table_150::PART_19;
        return find_row(&rows, x);
    }
    if x < FIRST_21 {
        let rows = table_150::PART_20;
        return find_row(&rows, x);
    }
    if x < FIRST_22 {
        let rows = table_150::PART_21;
        return find_row(&rows, x);
    }
    if x < FIRST_23 {
        let rows = table_150::PART_22;
        return find_row(&rows, x);
    }
    let rows = table_150::PART_23;
    find_row(&rows, x)
}

fn group_3(x: u32) -> u32
    ensures { result ≡ kind_in (group 3) x }
{
    if x < FIRST_25 {
        let rows = table_150::PART_24;
        return find_row(&rows, x);
    }
    if x < FIRST_26 {
        let rows = table_150::PART_25;
        return find_row(&rows, x);
    }
    if x < FIRST_27 {
        let rows = table_150::PART_26;
        return find_row(&rows, x);
    }
    if x < FIRST_28 {
        let rows = table_150::PART_27;
        return find_row(&rows, x);
    }
    if x < FIRST_29 {
        let rows = table_150::PART_28;
        return find_row(&rows, x);
    }
    if x < FIRST_30 {
        let rows = table_150::PART_29;
        return find_row(&rows, x);
    }
    if x < FIRST_31 {
        let rows = table_150::PART_30;
        return find_row(&rows, x);
    }
    let rows = table_150::PART_31;
    find_row(&rows, x)
}

fn group_4(x: u32) -> u32
    ensures { result ≡ kind_in (group 4) x }
{
    if x < FIRST_33 {
        let rows = table_150::PART_32;
        return find_row(&rows, x);
    }
    if x < FIRST_34 {
        let rows = table_150::PART_33;
        return find_row(&rows, x);
    }
    if x < FIRST_35 {
        let rows = table_150::PART_34;
        return find_row(&rows, x);
    }
    if x < FIRST_36 {
        let rows = table_150::PART_35;
        return find_row(&rows, x);
    }
    if x < FIRST_37 {
        let rows = table_150::PART_36;
        return find_row(&rows, x);
    }
    if x < FIRST_38 {
        let rows = table_150::PART_37;
        return find_row(&rows, x);
    }
    if x < FIRST_39 {
        let rows = table_150::PART_38;
        return find_row(&rows, x);
    }
    let rows = table_150::PART_39;
    find_row(&rows, x)
}

fn group_5(x: u32) -> u32
    ensures { result ≡ kind_in (group 5) x }
{
    if x < FIRST_41 {
        let rows = table_150::PART_40;
        return find_row(&rows, x);
    }
    if x < FIRST_42 {
        let rows = table_150::PART_41;
        return find_row(&rows, x);
    }
    if x < FIRST_43 {
        let rows = table_150::PART_42;
        return find_row(&rows, x);
    }
    if x < FIRST_44 {
        let rows = table_150::PART_43;
        return find_row(&rows, x);
    }
    if x < FIRST_45 {
        let rows = table_150::PART_44;
        return find_row(&rows, x);
    }
    if x < FIRST_46 {
        let rows = table_150::PART_45;
        return find_row(&rows, x);
    }
    if x < FIRST_47 {
        let rows = table_150::PART_46;
        return find_row(&rows, x);
    }
    let rows = table_150::PART_47;
    find_row(&rows, x)
}

fn group_6(x: u32) -> u32
    ensures { result ≡ kind_in (group 6) x }
{
    if x < FIRST_49 {
        let rows = table_150::PART_48;
        return find_row(&rows, x);
    }
    if x < FIRST_50 {
        let rows = table_150::PART_49;
        return find_row(&rows, x);
    }
    if x < FIRST_51 {
        let rows = table_150::PART_50;
        return find_row(&rows, x);
    }
    if x < FIRST_52 {
        let rows = table_150::PART_51;
        return find_row(&rows, x);
    }
    if x < FIRST_53 {
        let rows = table_150::PART_52;
        return find_row(&rows, x);
    }
    if x < FIRST_54 {
        let rows = table_150::PART_53;
        return find_row(&rows, x);
    }
    if x < FIRST_55 {
        let rows = table_150::PART_54;
        return find_row(&rows, x);
    }
    let rows = table_150::PART_55;
    find_row(&rows, x)
}

fn group_7(x: u32) -> u32
    ensures { result ≡ kind_in (group 7) x }
{
    if x < FIRST_57 {
        let rows = table_150::PART_56;
        return find_row(&rows, x);
    }
    if x < FIRST_58 {
        let rows = table_150::PART_57;
        return find_row(&rows, x);
    }
    if x < FIRST_59 {
        let rows = table_150::PART_58;
        return find_row(&rows, x);
    }
    if x < FIRST_60 {
        let rows = table_150::PART_59;
        return find_row(&rows, x);
    }
    if x < FIRST_61 {
        let rows = table_150::PART_60;
        return find_row(&rows, x);
    }
    let rows = table_150::PART_61;
    find_row(&rows, x)
}

// The class and width of a scalar: 4 times the number of the class, and the width.
pub fn find_150(x: u32) -> u32
    ensures { result ≡ kind_in table150 x }
{
    if x < FIRST_8 {
        return group_0(x);
    }
    if x < FIRST_16 {
        return group_1(x);
    }
    if x < FIRST_24 {
        return group_2(x);
    }
    if x < FIRST_32 {
        return group_3(x);
    }
    if x < FIRST_40 {
        return group_4(x);
    }
    if x < FIRST_48 {
        return group_5(x);
    }
    if x < FIRST_56 {
        return group_6(x);
    }
    group_7(x)
}
