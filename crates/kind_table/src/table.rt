use crate::kind::Kind;
use crate::pattern::{E, Leading, Pattern, S, V, row};
use crate::shape_pattern::ShapePattern;
use crate::unit_class::UnitClass;
use Pattern::{All, Fixed, From, NoArgument, Only, Scalars};
use ShapePattern::{Scalar, ScalarArguments, SecondArgument, Unknown, UnknownOfThree};
use kind_values::ValueRule;

/// The table: a row for the kinds that take their arguments alike and have their shapes alike. The kinds are numbered
/// from 0, row by row, from left to right. Behind the name of a kind stands the rule of its value, where it has one, and in
/// brackets the class of its unit.
macro_rules! rows {
    ($each:ident) => {
        $each! {
            NoArgument, Scalar =>
                "FALSE" False, "TRUE" True, "PI", "NA", "NOW" [DateTime], "TODAY" [Date], "RAND";
            All(V), Scalar =>
                "AND" And, "OR" Or, "XOR", "MAX" Max, "MIN" Min, "PRODUCT",
                "SUM" Sum [FirstArgument], "SUMIFS", "CONCAT", "AVERAGE" [FirstArgument], "AVEDEV",
                "AVERAGEA", "AVERAGEIFS", "COUNT" Count, "COUNTA" Counta, "COUNTBLANK", "COUNTIFS",
                "MAXIFS", "MINIFS", "GEOMEAN", "GCD", "LCM", "SUMSQ", "MULTINOMIAL", "SUMPRODUCT",
                "DEVSQ", "STDEV", "STDEVP", "STDEVS", "STDEVA", "STDEVPA", "VARP", "VARS", "VARPA",
                "VARA", "MODECOMPAT", "STDEVPCOMPAT", "VARCOMPAT", "VARPCOMPAT", "FORECASTETS",
                "FORECASTETSCONFINT", "FORECASTETSSEASONALITY", "FORECASTETSSTAT", "MODESINGL",
                "HARMEAN", "KURT", "MAXA", "MEDIAN", "MINA", "SKEW", "SKEWP";
            All(S), Scalar =>
                "IFS", "SWITCH", "CONCATENATE";
            Scalars(1, 0), Scalar =>
                "NOT", "SQRTPI", "ERRORTYPE", "ISBLANK", "ISERR", "ISERROR", "ISEVEN", "ISFORMULA",
                "ISLOGICAL", "ISNA", "ISNONTEXT", "ISNUMBER", "ISODD", "ISOMITTED", "ISTEXT", "T",
                "VALUE", "DATEVALUE", "TIMEVALUE", "HOUR", "MINUTE", "SECOND", "UNICODE",
                "UNICHAR", "CHAR", "CODE", "ASC", "ENCODEURL", "LENB", "FISHER", "FISHERINV",
                "GAMMA", "GAMMALN", "GAMMALNPRECISE", "NORMSINV", "PHI", "NORMSDISTCOMPAT",
                "NORMSINVCOMPAT", "GAUSS";
            Scalars(2, 0), Scalar =>
                "REGEXTEST", "EDATE", "DAYS", "DOLLARDE", "DOLLARFR", "EFFECT", "NOMINAL",
                "CHISQINVRT", "NORMSDIST", "TDIST2T", "TDISTRT", "TINV", "TINV2T", "CHIDISTCOMPAT",
                "CHIINVCOMPAT", "TINVCOMPAT";
            Scalars(3, 0), Scalar =>
                "REGEXREPLACE", "DATEDIF", "TIME", "PDURATION", "RRI", "SLN" [Currency],
                "TBILLEQ" [PercentageTwo], "TBILLPRICE" [Currency], "TBILLYIELD" [PercentageTwo],
                "CONVERT", "MIDB", "BINOMINV", "CHISQDISTRT", "CHISQINV", "CONFIDENCENORM",
                "CONFIDENCET", "EXPONDIST", "FDISTRT", "FINV", "FINVRT", "GAMMAINV", "LOGNORMINV",
                "NORMINV", "POISSONDIST", "STANDARDIZE", "TDIST", "LOGNORMDISTCOMPAT",
                "NEGBINOMDISTCOMPAT", "TDISTCOMPAT", "CONFIDENCECOMPAT", "CRITBINOMCOMPAT",
                "EXPONDISTCOMPAT", "FDISTCOMPAT", "FINVCOMPAT", "GAMMAINVCOMPAT", "LOGINVCOMPAT",
                "NORMINVCOMPAT", "POISSONCOMPAT";
            Scalars(4, 0), Scalar =>
                "ISPMT", "SYD" [Currency], "REPLACEB", "BINOMDIST", "CHISQDIST", "FDIST",
                "GAMMADIST", "LOGNORMDIST", "NEGBINOMDIST", "NORMDIST", "WEIBULLDIST",
                "HYPGEOMDISTCOMPAT", "BINOMDISTCOMPAT", "GAMMADISTCOMPAT", "NORMDISTCOMPAT",
                "WEIBULLCOMPAT";
            Scalars(5, 0), Scalar =>
                "HYPGEOMDIST";
            Scalars(6, 0), Scalar =>
                "CUMIPMT" [Currency], "CUMPRINC" [Currency];
            Scalars(0, 1), Scalar =>
                "SHEET";
            Scalars(1, 1), Scalar =>
                "HYPERLINK", "VALUETOTEXT", "WEEKNUM", "DELTA", "GESTEP", "DOLLAR", "LEFTB",
                "RIGHTB";
            Scalars(1, 2), Scalar =>
                "FIXED", "NUMBERVALUE";
            Scalars(2, 1), Scalar =>
                "DAYS360", "WORKDAY", "YEARFRAC", "FINDB", "SEARCHB";
            Scalars(2, 2), Scalar =>
                "WORKDAYINTL";
            Scalars(2, 4), Scalar =>
                "TEXTAFTER", "TEXTBEFORE";
            Scalars(3, 1), Scalar =>
                "COUPDAYBS", "COUPDAYS", "COUPDAYSNC", "COUPNCD", "COUPNUM", "COUPPCD",
                "BINOMDISTRANGE";
            Scalars(3, 2), Scalar =>
                "FV" [Currency], "NPER" [Currency], "PMT" [Currency], "PV", "BETAINV",
                "BETADISTCOMPAT", "BETAINVCOMPAT";
            Scalars(3, 3), Scalar =>
                "RATE";
            Scalars(4, 1), Scalar =>
                "DISC", "INTRATE", "PRICEDISC", "RECEIVED", "YIELDDISC", "DB" [Currency],
                "DDB" [Currency];
            Scalars(4, 2), Scalar =>
                "IPMT", "PPMT", "BETADIST";
            Scalars(5, 1), Scalar =>
                "PRICEMAT", "YIELDMAT", "DURATION", "MDURATION";
            Scalars(5, 2), Scalar =>
                "VDB";
            Scalars(6, 1), Scalar =>
                "PRICE", "YIELD", "AMORDEGRC", "AMORLINC";
            Scalars(7, 1), Scalar =>
                "ODDLPRICE", "ODDLYIELD";
            Scalars(8, 1), Scalar =>
                "ODDFPRICE", "ODDFYIELD";
            Only(1, 1, row!(V)), Scalar =>
                "ISREF", "TYPE", "MDETERM";
            Only(2, 2, row!(V V)), Scalar =>
                "PERCENTOF", "CHISQTEST", "COVARIANCEP", "COVARIANCES", "PEARSON", "CHITESTCOMPAT",
                "COVARCOMPAT";
            Only(2, 2, row!(V S)), Scalar =>
                "PERCENTILECOMPAT", "QUARTILECOMPAT";
            Only(4, 4, row!(V V S S)), Scalar =>
                "TTEST", "TTESTCOMPAT";
            Only(4, 4, row!(S S S V)), Scalar =>
                "SERIESSUM";
            Only(3, 3, row!(V S S)), Scalar =>
                "MIRR" [Percentage];
            Only(3, 3, row!(S V V)), Scalar =>
                "XNPV";
            Only(2, 3, row!(V S S)), Scalar =>
                "ZTEST", "PERCENTRANKCOMPAT", "ZTESTCOMPAT";
            Only(2, 3, row!(V S V)), Scalar =>
                "AVERAGEIF", "COUNTIF";
            Only(3, 4, row!(V V S V)), Scalar =>
                "HLOOKUP", "VLOOKUP";
            Only(2, 3, row!(V V V)), Scalar =>
                "LOOKUP";
            Only(2, 3, row!(V V S)), Scalar =>
                "MATCH", "XIRR";
            Only(3, 6, row!(V V V S S S)), Scalar =>
                "XLOOKUP";
            Only(2, 4, row!(S V S S)), Scalar =>
                "XMATCH";
            Only(1, 2, row!(V S)), Scalar =>
                "IRR" [Percentage];
            Only(2, 3, row!(S S V)), Scalar =>
                "NETWORKDAYS";
            Only(2, 4, row!(S S S V)), Scalar =>
                "NETWORKDAYSINTL";
            Only(3, 4, row!(V V S S)), Scalar =>
                "PROB";
            From(3, row!(S S then V)), Scalar =>
                "TEXTJOIN";
            From(2, row!(S then V)), Scalar =>
                "NPV" [Currency], "SUBTOTAL";
            Fixed(row!(S V)), Scalar =>
                "FVSCHEDULE";
            Fixed(row!(V S V)), Scalar =>
                "DAVERAGE", "DCOUNT", "DGET", "DMAX", "DMIN", "DSUM", "DCOUNTA", "DPRODUCT",
                "DSTDEV", "DVAR", "DVARP", "DSTDEVP";
            Fixed(row!(V V)), Scalar =>
                "FTEST", "FTESTCOMPAT", "SUMX2MY2", "SUMX2PY2", "SUMXMY2", "CORREL", "RSQ",
                "INTERCEPT", "SLOPE", "STEYX";
            Fixed(row!(S V V)), Scalar =>
                "FORECAST", "FORECASTLINEAR";
            Fixed(row!(V S)), Scalar =>
                "PERCENTILEEXC", "PERCENTILEINC", "QUARTILEEXC", "QUARTILEINC", "TRIMMEAN",
                "LARGE", "SMALL";
            Fixed(row!(V S S)), Scalar =>
                "PERCENTRANKEXC", "PERCENTRANKINC";
            Fixed(row!(S S)), Scalar =>
                "PERMUT", "PERMUTATIONA";
            Fixed(row!(S V S)), Scalar =>
                "RANKCOMPAT", "RANKAVG", "RANKEQ";
            Scalars(1, 0), ScalarArguments =>
                "ABS" Abs, "ACOS", "ACOSH", "ASIN", "ASINH", "ATAN", "ATANH", "LN", "LOG10", "COS",
                "COSH", "SIN", "SINH", "SQRT", "TAN", "TANH", "LEN", "LOWER", "TRIM", "UPPER",
                "DAY", "MONTH", "YEAR", "ISOWEEKNUM", "ERFC", "ERFCPRECISE", "ERFPRECISE",
                "BIN2DEC", "BIN2HEX", "BIN2OCT", "DEC2BIN", "DEC2HEX", "DEC2OCT", "HEX2BIN",
                "HEX2DEC", "HEX2OCT", "OCT2BIN", "OCT2DEC", "OCT2HEX", "IMABS", "IMAGINARY",
                "IMARGUMENT", "IMCONJUGATE", "IMCOS", "IMCOSH", "IMCOT", "IMCSC", "IMCSCH",
                "IMEXP", "IMLN", "IMLOG10", "IMLOG2", "IMREAL", "IMSEC", "IMSECH", "IMSIN",
                "IMSINH", "IMSQRT", "IMTAN", "CLEAN", "PROPER", "ACOT", "ACOTH", "COT", "COTH",
                "CSC", "CSCH", "SEC", "SECH", "EXP", "FACT", "FACTDOUBLE", "SIGN" Sign, "RADIANS",
                "DEGREES", "INT" Int, "EVEN", "ODD", "ARABIC", "N";
            Scalars(2, 0), ScalarArguments =>
                "IFERROR", "IFNA", "ATAN2", "POWER", "ROUND", "ROUNDDOWN", "ROUNDUP", "EXACT",
                "REPT", "TEXT", "EOMONTH", "BESSELI", "BESSELJ", "BESSELK", "BESSELY", "BITAND",
                "BITLSHIFT", "BITOR", "BITRSHIFT", "BITXOR", "IMDIV", "IMPOWER", "IMPRODUCT",
                "IMSUB", "IMSUM", "RANDBETWEEN", "ECMACEILING", "CEILING", "FLOOR", "MOD",
                "QUOTIENT", "MROUND", "DECIMAL", "COMBIN", "COMBINA";
            Scalars(3, 0), ScalarArguments =>
                "MID", "DATE" [Date];
            Scalars(4, 0), ScalarArguments =>
                "REPLACE";
            Scalars(0, 1), ScalarArguments =>
                "SHEETS";
            Scalars(1, 1), ScalarArguments =>
                "LOG", "LEFT", "WEEKDAY", "ERF", "CEILINGPRECISE", "FLOORPRECISE", "ISOCEILING",
                "TRUNC", "ROMAN";
            Scalars(1, 2), ScalarArguments =>
                "CEILINGMATH", "FLOORMATH";
            Scalars(2, 1), ScalarArguments =>
                "IF" If, "FIND", "RIGHT", "SEARCH", "COMPLEX", "BASE";
            Scalars(3, 1), ScalarArguments =>
                "SUBSTITUTE";
            Scalars(3, 2), ScalarArguments =>
                "ACCRINTM";
            Scalars(6, 2), ScalarArguments =>
                "ACCRINT";
            Scalars(1, 0), Unknown =>
                "MUNIT";
            Scalars(1, 1), Unknown =>
                "CELL", "INFO";
            Scalars(0, 5), Unknown =>
                "RANDARRAY";
            Only(1, 1, row!(V)), Unknown =>
                "MINVERSE";
            Only(2, 2, row!(V V)), Unknown =>
                "MMULT";
            Fixed(row!(V V)), Unknown =>
                "FREQUENCY";
            All(V), Unknown =>
                "MODEMULT";
            Only(1, 4, row!(V V V S)), Unknown =>
                "GROWTH", "TREND";
            Only(1, 4, row!(V V S S)), Unknown =>
                "LINEST", "LOGEST";
            Only(2, 3, row!(V V V)), SecondArgument =>
                "SUMIF";
            Scalars(2, 1), UnknownOfThree =>
                "REGEXEXTRACT";
        }
    };
}

macro_rules! kinds {
    ($($signature:expr, $shape:expr => $($name:literal $($value:ident)? $([$unit:ident])?),+;)+) => {
        [$($(Kind {
            signature: $signature,
            shape: $shape,
            value: value_rule!($($value)?),
            unit_class: unit_class!($($unit)?),
        }),+),+]
    };
}

macro_rules! value_rule {
    () => { ValueRule::NotImplemented };
    ($value:ident) => { ValueRule::$value };
}

macro_rules! unit_class {
    () => { UnitClass::NoUnit };
    ($unit:ident) => { UnitClass::$unit };
}

macro_rules! names {
    ($($signature:expr, $shape:expr => $($name:literal $($value:ident)? $([$unit:ident])?),+;)+) => {
        [$($($name),+),+]
    };
}

/// What the table says of each kind, by its number.
pub static KINDS: [Kind; 458] = rows!(kinds);

/// The name of each kind, by its number.
pub static NAMES: [&str; 458] = rows!(names);
