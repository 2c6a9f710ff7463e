//! The rules of the grammar by name.

// Items.

pub const ITEMS_END: u32 = 0;

pub const ITEMS: u32 = 1;

pub const TARGET: u32 = 2;

pub const ATTRIBUTES: u32 = 3;

pub const METADATA: u32 = 4;

pub const DECLARATION: u32 = 5;

pub const NAMED_TYPE: u32 = 6;

pub const GLOBAL: u32 = 7;

pub const DEFINITION: u32 = 8;

pub const OPAQUE: u32 = 9;

pub const STRUCT_BODY: u32 = 10;

pub const EXTERNAL_GLOBAL: u32 = 11;

pub const HELD_GLOBAL: u32 = 12;

pub const NO_GLOBAL_LINKAGE: u32 = 13;

pub const GLOBAL_LINKAGE: u32 = 14;

pub const NO_ALIGN: u32 = 15;

pub const ALIGN: u32 = 16;

// Heads, declarations and parameters.

pub const DECLARED: u32 = 17;

pub const DECLARED_DEBUG: u32 = 18;

pub const NO_DECLARED_PARAMS: u32 = 19;

pub const DECLARED_PARAMS: u32 = 20;

pub const NO_MORE_DECLARED: u32 = 21;

pub const MORE_DECLARED: u32 = 22;

pub const DECLARED_OPEN: u32 = 23;

pub const DECLARED_PARAM: u32 = 24;

pub const RESULT: u32 = 25;

pub const NO_CONVENTION: u32 = 26;

pub const CONVENTION: u32 = 27;

pub const VOID_RESULT: u32 = 28;

pub const TYPED_RESULT: u32 = 29;

pub const HEAD: u32 = 30;

pub const HEAD_END: u32 = 31;

pub const NO_UNNAMED_ADDR: u32 = 32;

pub const UNNAMED_ADDR: u32 = 33;

pub const NO_LINKAGE: u32 = 34;

pub const WORD_LINKAGE: u32 = 35;

pub const EXTERNAL_LINKAGE: u32 = 36;

pub const PARAMS_END: u32 = 37;

pub const PARAMS: u32 = 38;

pub const MORE_PARAMS_END: u32 = 39;

pub const MORE_PARAMS: u32 = 40;

pub const PARAM: u32 = 41;

pub const UNNAMED: u32 = 42;

pub const NAMED: u32 = 43;

// Attributes and metadata.

pub const PARAM_ATTRIBUTES_END: u32 = 44;

pub const PARAM_ATTRIBUTES: u32 = 45;

pub const EXTENSION: u32 = 46;

pub const PARAM_WORD: u32 = 47;

pub const PARAM_ACCESS: u32 = 48;

pub const SIZED: u32 = 49;

pub const PARAM_ALIGN: u32 = 50;

pub const FUNCTION_ATTRIBUTES_END: u32 = 51;

pub const FUNCTION_ATTRIBUTES: u32 = 52;

pub const GROUP: u32 = 53;

pub const TEXT_ATTRIBUTE: u32 = 54;

pub const FUNCTION_ALIGN: u32 = 55;

pub const ALIGN_STACK: u32 = 56;

pub const FUNCTION_WORD: u32 = 57;

pub const FUNCTION_ACCESS: u32 = 58;

pub const NO_ATTRIBUTE_VALUE: u32 = 59;

pub const ATTRIBUTE_VALUE: u32 = 60;

pub const NOT_ATTACHED: u32 = 61;

pub const ATTACHED: u32 = 62;

pub const ATTACHMENTS_END: u32 = 63;

pub const ATTACHMENTS: u32 = 64;

pub const ATTACHMENT: u32 = 65;

pub const NAMED_META: u32 = 66;

pub const BANG_META: u32 = 67;

pub const NO_META_ARGUMENTS: u32 = 68;

pub const META_ARGUMENTS: u32 = 69;

pub const BANG_TEXT: u32 = 70;

pub const BANG_NODE: u32 = 71;

pub const NOT_DISTINCT: u32 = 72;

pub const DISTINCT: u32 = 73;

// Types.

pub const POINTERS: u32 = 74;

pub const INT_TYPE: u32 = 75;

pub const NAMED_BASE: u32 = 76;

pub const ARRAY_TYPE: u32 = 77;

pub const STRUCT_TYPE: u32 = 78;

pub const STARS_END: u32 = 79;

pub const STARS: u32 = 80;

pub const TYPES_END: u32 = 81;

pub const TYPES: u32 = 82;

pub const MORE_TYPES_END: u32 = 83;

pub const MORE_TYPES: u32 = 84;

pub const NOT_CALLED: u32 = 85;

pub const CALLED: u32 = 86;

pub const NO_MORE_CALLED: u32 = 87;

pub const MORE_CALLED: u32 = 88;

pub const CALLED_OPEN: u32 = 89;

pub const CALLED_TYPE: u32 = 90;

pub const NO_FUNCTION_TYPE: u32 = 91;

pub const FUNCTION_TYPE: u32 = 92;

// Constants, initialisers and values.

pub const PLAIN_NAME: u32 = 93;

pub const DEBUG_NAME: u32 = 94;

pub const NUMBER: u32 = 95;

pub const TRUTH: u32 = 96;

pub const NOT_INBOUNDS: u32 = 97;

pub const INBOUNDS: u32 = 98;

pub const INT_CONST: u32 = 99;

pub const NULL_CONST: u32 = 100;

pub const UNDEF_CONST: u32 = 101;

pub const GLOBAL_CONST: u32 = 102;

pub const ELEMENT_CONST: u32 = 103;

pub const CAST_CONST: u32 = 104;

pub const MORE_CONSTS_END: u32 = 105;

pub const MORE_CONSTS: u32 = 106;

pub const CONST_INIT: u32 = 107;

pub const ZERO_INIT: u32 = 108;

pub const BYTES_INIT: u32 = 109;

pub const ARRAY_INIT: u32 = 110;

pub const STRUCT_INIT: u32 = 111;

pub const INITS_END: u32 = 112;

pub const INITS: u32 = 113;

pub const MORE_INITS_END: u32 = 114;

pub const MORE_INITS: u32 = 115;

pub const CONST_VALUE: u32 = 116;

pub const LOCAL: u32 = 117;

pub const OLD_REGISTER: u32 = 118;

pub const GHOST_REGISTER: u32 = 119;

pub const OPERAND: u32 = 120;

// Lines and expressions.

pub const OVERFLOW: u32 = 121;

pub const EXACT: u32 = 122;

pub const PLAIN: u32 = 123;

pub const FLAGS_END: u32 = 124;

pub const FLAGS: u32 = 125;

pub const INEXACT: u32 = 126;

pub const EXACTLY: u32 = 127;

pub const BINARY: u32 = 128;

pub const COMPARE: u32 = 129;

pub const RESIZE: u32 = 130;

pub const BITCAST: u32 = 131;

pub const SELECT: u32 = 132;

pub const OPERATION: u32 = 133;

pub const ELEMENT: u32 = 134;

pub const ALLOCA: u32 = 135;

pub const LOAD: u32 = 136;

pub const STORE: u32 = 137;

pub const TAIL_CALL: u32 = 138;

pub const CALL: u32 = 139;

pub const NO_ALIGN_BEHIND: u32 = 140;

pub const ALIGN_BEHIND: u32 = 141;

pub const ALIGN_NEXT: u32 = 142;

pub const ALIGN_ATTACHMENT: u32 = 143;

pub const NO_COUNT_BEHIND: u32 = 144;

pub const COUNT_BEHIND: u32 = 145;

pub const COUNT_NEXT: u32 = 146;

pub const NO_NEXT_COUNT: u32 = 147;

pub const NO_INDICES_BEHIND: u32 = 148;

pub const INDICES_BEHIND: u32 = 149;

pub const INDEX_NEXT: u32 = 150;

pub const INDEX_ATTACHMENT: u32 = 151;

pub const CONVENTION_CALL: u32 = 152;

pub const ATTRIBUTES_CALL: u32 = 153;

pub const TYPED_CALL: u32 = 154;

pub const CALL_OF_VOID: u32 = 155;

pub const CALLEE: u32 = 156;

pub const VOID_CALLEE: u32 = 157;

pub const STATED_CALLEE: u32 = 158;

pub const PLAIN_CALL: u32 = 159;

pub const DEBUG_CALL: u32 = 160;

pub const CALL_END: u32 = 161;

pub const ARGUMENTS_END: u32 = 162;

pub const ARGUMENTS: u32 = 163;

pub const MORE_ARGUMENTS_END: u32 = 164;

pub const MORE_ARGUMENTS: u32 = 165;

pub const ARGUMENT: u32 = 166;

pub const LINE: u32 = 167;

pub const NO_REGISTER: u32 = 168;

pub const REGISTER: u32 = 169;

pub const LINES_END: u32 = 170;

pub const LINES: u32 = 171;

pub const EXPRESSION_OPERAND: u32 = 172;

pub const EXPRESSION_OPERATION: u32 = 173;

pub const EXPRESSION_ELEMENT: u32 = 174;

pub const EXPRESSION_LOAD: u32 = 175;

pub const INDICES_END: u32 = 176;

pub const INDICES: u32 = 177;

pub const LOCAL_NAME: u32 = 178;

// Blocks.

pub const BLOCK: u32 = 179;

pub const NO_LABEL: u32 = 180;

pub const LABEL: u32 = 181;

pub const BLOCKS_END: u32 = 182;

pub const BLOCKS: u32 = 183;

pub const BODY_END: u32 = 184;

pub const BODY: u32 = 185;

pub const BEHIND_PHI: u32 = 186;

pub const BEHIND_LINE: u32 = 187;

pub const NODE: u32 = 188;

pub const NO_ENTRIES_BEHIND: u32 = 189;

pub const ENTRIES_BEHIND: u32 = 190;

pub const ENTRY_NEXT: u32 = 191;

pub const ENTRY_ATTACHMENT: u32 = 192;

pub const ENTRY: u32 = 193;

pub const END: u32 = 194;

pub const RET: u32 = 195;

pub const BR: u32 = 196;

pub const SWITCH: u32 = 197;

pub const UNREACHABLE: u32 = 198;

pub const RETURNED_VOID: u32 = 199;

pub const RETURNED: u32 = 200;

pub const ALWAYS: u32 = 201;

pub const CONDITION: u32 = 202;

pub const CASES_END: u32 = 203;

pub const CASES: u32 = 204;

pub const CASE: u32 = 205;

// Text of which nothing is kept: its end, a token that is none of ( ) [ ] { }, and what stands between these. Each such token has a rule of
// its own, the first one a string.

pub const BALANCED_END: u32 = 206;

pub const BALANCED_TOKEN: u32 = 207;

pub const BALANCED_PARENS: u32 = 208;

pub const BALANCED_BRACKETS: u32 = 209;

pub const BALANCED_BRACES: u32 = 210;

pub const BALANCED_STRING: u32 = 211;
